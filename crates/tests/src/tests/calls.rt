// Calls that make a cord of another one, and what a cord is.
use super::made::{Parts, made};
use super::trees::share_of;
use cord_core::Cord;
use cord_ec::ExtCord;
use cord_io::CordError;
use cord_printf::{Arg, Format, sprintf};
use std::alloc::Global;
use std::process::Abort;

// What is done to an extensible cord.
pub(super) enum Growth {
    Byte(u8),
    // The cord that it is made of is appended.
    It,
    // A cord is made of it.
    ToCord,
}

// What is made of a cord.
#[derive(Clone, Copy)]
pub(super) enum Call {
    // It, and these parts after it.
    Cat(Parts),
    // It after these parts.
    CatTo(Parts),
    // It after itself, in one call and so many times in a row.
    Twice,
    Times(u32),
    CatChar(u8),
    CatBytes(&'static [u8]),
    // It so many times in a row, in one call.
    Catn(usize),
    Substr(u64, u64),
    // It without so many bytes in front and at the end.
    Between(u64, u64),
    // From a place so far before the end on, so many bytes.
    FromEnd(u64, u64),
    Share,
    Balance,
    // What an extensible cord that grew so has in the end.
    Grown(&'static [Growth]),
    // What a format of two conversions prints of it and of it again.
    Printed(&'static [u8]),
}

fn copies(rt: &impl Abort, alloc: Global, cord: &Cord, count: usize) -> Vec<Cord> {
    let mut all = Vec::new(alloc);
    for _ in 0..count {
        all.push(share_of(rt, alloc, cord)).expect(rt, "no memory");
    }
    all
}

fn repeated(alloc: Global, cord: &Cord, count: u32) -> Result<Cord, CordError> {
    let mut all = Cord::empty();
    for _ in 0..count {
        all = Cord::cat(alloc, &all, cord)?;
    }
    Ok(all)
}

fn grown(rt: &impl Abort, alloc: Global, cord: &Cord, steps: &[Growth]) -> Result<Cord, CordError> {
    let mut ext = ExtCord::new(alloc).expect(rt, "no memory");
    for step in steps {
        match step {
            Growth::Byte(byte) => ext.append(alloc, *byte).expect(rt, "no memory"),
            Growth::It => ext.append_cord(alloc, cord).expect(rt, "no memory"),
            Growth::ToCord => drop(ext.to_cord(alloc).expect(rt, "no memory")),
        }
    }
    ext.to_cord(alloc)
}

fn printed(rt: &impl Abort, alloc: Global, cord: &Cord, format: &[u8]) -> Cord {
    let format = Format::parse(alloc, format).expect(rt, "no memory");
    let args = [
        Arg::Cord(share_of(rt, alloc, cord)),
        Arg::Cord(share_of(rt, alloc, cord)),
    ];
    sprintf(alloc, &format, &args).expect(rt, "no memory")
}

pub(super) fn answer_of(
    rt: &impl Abort,
    alloc: Global,
    cord: &Cord,
    call: Call,
) -> Result<Cord, CordError> {
    match call {
        Call::Cat(parts) => Cord::cat(alloc, cord, &made(rt, alloc, parts)),
        Call::CatTo(parts) => Cord::cat(alloc, &made(rt, alloc, parts), cord),
        Call::Twice => Cord::cat(alloc, cord, cord),
        Call::Times(count) => repeated(alloc, cord, count),
        Call::CatChar(byte) => Cord::cat_char(alloc, cord, byte),
        Call::CatBytes(bytes) => Cord::cat_bytes(alloc, cord, bytes),
        Call::Catn(count) => Cord::catn(alloc, &copies(rt, alloc, cord, count)),
        Call::Substr(start, count) => cord.substr(alloc, start, count),
        Call::Between(prefix, suffix) => {
            let rest = prefix.saturating_add(suffix);
            cord.substr(alloc, prefix, cord.len().saturating_sub(rest))
        }
        Call::FromEnd(back, count) => cord.substr(alloc, cord.len().saturating_sub(back), count),
        Call::Share => cord.share(alloc),
        Call::Balance => cord.balance(alloc),
        Call::Grown(steps) => grown(rt, alloc, cord, steps),
        Call::Printed(format) => Ok(printed(rt, alloc, cord, format)),
    }
}

// What calls make of a cord, one after another.
pub(super) fn after(rt: &impl Abort, alloc: Global, first: Cord, calls: &[Call]) -> Cord {
    let mut cord = first;
    for call in calls {
        cord = answer_of(rt, alloc, &cord, *call).expect(rt, "no cord");
    }
    cord
}
