// Laws of formats: each function's contract is the law, and its body does nothing.
ghost use Rattle.std.specs.Prelude.{◌≡◌};
ghost use Rattle.cord_printf.specs.declared.TheConstants.{MAX_WIDTH};
ghost use Rattle.cord_printf.specs.FormatLaws.{
  OneFormat,
  BadIsNoFormat,
  OneBadOffset,
  FormatOrBad,
  DigitsWriteNumbers,
};

/// Bytes are one list of pieces at most.
pub fn formats_have_one_reading()
    ensures { OneFormat }
{}

/// Bytes with a bad conversion are no format, and have one first bad conversion.
pub fn refused_formats_are_none()
    ensures none { BadIsNoFormat }
    ensures one { OneBadOffset }
{}

/// All bytes are a format or have a bad conversion.
pub fn bytes_are_format_or_bad()
    ensures { FormatOrBad }
{}

/// The digits that conversions show write their number: the most significant first, none of them 0 in front.
pub fn digits_write_their_number()
    ensures { DigitsWriteNumbers }
{}

/// The limit of formats, as a numeral.
pub fn limits_are()
    ensures width { MAX_WIDTH ≡ 9999 }
{}
