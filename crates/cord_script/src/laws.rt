// Laws of scripts: each function's contract is the law.
ghost use Rattle.cord_script.specs.Laws.{ReadHasNoError, ReadOrError, OneScript, OneError, BranchesKeep};
ghost use Rattle.cord_script.specs.Examples.{Examples};

use cord_printf::{bytes_are_format_or_bad, formats_have_one_reading, refused_formats_are_none};

/// A script that is read has no error.
pub fn read_scripts_have_no_error()
    ensures { ReadHasNoError }
{
    formats_have_one_reading();
    refused_formats_are_none();
}

/// All bytes are read as a script or have an error.
pub fn bytes_are_read_or_have_an_error()
    ensures { ReadOrError }
{
    bytes_are_format_or_bad();
}

/// At most one script is read from given bytes.
pub fn bytes_are_one_script()
    ensures { OneScript }
{
    formats_have_one_reading();
    refused_formats_are_none();
}

/// Bytes have at most one first error.
pub fn bytes_have_one_error()
    ensures { OneError }
{
    formats_have_one_reading();
    refused_formats_are_none();
}

/// A script that is read without branches is read with the same statements with them.
pub fn branches_change_no_script()
    ensures { BranchesKeep }
{}

/// The worked examples: what is read in small texts, and what is wrong with them first.
pub fn worked_examples_hold()
    ensures { Examples }
{
    bytes_are_format_or_bad();
}
