ghost use Rattle.std.specs.Prelude.{◌≡◌, IsErr, IsOk, OnOk};
ghost use Rattle.dd_elem.specs.Device.{HasFailed};
ghost use Rattle.dd_lines.specs.Text.{TakesText};
ghost use Rattle.dd_messages.specs.Counts.{counts_words, images_words, word_of};

use dd_elem::Write;
use dd_lines::print_line;
use itoa::Buffer;
use std::fmt;

/// What the last line of a command says of its file-set.
#[derive(Clone, Copy)]
pub enum Ending {
    /// It was made.
    Done,
    /// It would be made.
    Planned,
}

impl Ending {
    /// Gives its word.
    pub fn word(self) -> &'static str
        ensures { result.now ≡ word_of self }
    {
        match self {
            Ending::Done => "DONE",
            Ending::Planned => "PLAN",
        }
    }
}

/// Prints how many images a file-set has, and how many bytes its directory has.
pub fn print_counts<O: Write>(
    ending: Ending,
    instances: u64,
    bytes: u64,
    out: &mut O,
) -> fmt::Result
    ensures told { OnOk result (TakesText O.Write out.old out.new
        (counts_words (word_of ending) instances bytes)) }
    ensures worked { IsOk result → O.failures out.new ≡ O.failures out.old }
    ensures failed { IsErr result → HasFailed (O.failures out.old) (O.failures out.new) }
{
    let (mut count, mut size) = (Buffer::new(), Buffer::new());
    let (count, size) = (count.format(instances), size.format(bytes));
    let parts = [ending.word(), " ", count, " instances, ", size, " bytes"];
    print_line(&parts, out)
}

/// Prints the same of a file-set that would be made, with the number of bytes of its images.
pub fn print_images<O: Write>(instances: u64, bytes: u64, images: u64, out: &mut O) -> fmt::Result
    ensures told { OnOk result (TakesText O.Write out.old out.new
        (images_words instances bytes images)) }
    ensures worked { IsOk result → O.failures out.new ≡ O.failures out.old }
    ensures failed { IsErr result → HasFailed (O.failures out.old) (O.failures out.new) }
{
    let (mut count, mut size, mut all) = (Buffer::new(), Buffer::new(), Buffer::new());
    let (count, size) = (count.format(instances), size.format(bytes));
    let all = all.format(images);
    print_line(
        &[
            "PLAN",
            " ",
            count,
            " instances, ",
            size,
            " bytes, ",
            all,
            " bytes of images",
        ],
        out,
    )
}
