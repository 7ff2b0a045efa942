//! The words of tags and of the faults of files, as the program prints them.
ghost use Rattle.std.specs.Prelude.{◌≡◌, ◌++◌, ◌<◌, ◌^◌, codes, true};
ghost use Rattle.std.specs.Fmt.{digit_glyph};
ghost use Rattle.hex.specs.Hex.{encode_lower};
ghost use Rattle.dd_elem.specs.Tag.{four_digits, text_of};
ghost use Rattle.dd_report.specs.Checking.{differs_parts};
ghost use Rattle.dd_lines.specs.Telling.{Tells, shown_line, way_of};
ghost use Rattle.dd_report.specs.Words.{file_words, mislabelled_parts, set_words};

use dd_elem::{Tag, Write};
use dd_files::digest_text;
use dd_lines::LineBuffer;
use dd_part10::FileFault;
use dd_set::SetFault;
use std::fmt;

pub(crate) fn tell_tag<W: Write>(
    file: &[u8],
    tag: Tag,
    lines: &mut LineBuffer<'_, W>,
) -> fmt::Result
    ensures same { lines.new.to.ghost_name ≡ lines.old.to.ghost_name }
    ensures written { Tells result (shown_line (mislabelled_parts file.now (text_of tag)))
        (way_of W.Write lines.old) (way_of W.Write lines.new) }
{
    lines.add_line(&[b"MISLABELLED ", file, b" ", &tag_text(tag)[..]])
}

pub(crate) fn tell_fault<W: Write>(
    file: &[u8],
    fault: &FileFault,
    lines: &mut LineBuffer<'_, W>,
) -> fmt::Result
    ensures same { lines.new.to.ghost_name ≡ lines.old.to.ghost_name }
    ensures written { Tells result
        (shown_line (mislabelled_parts file.now (codes "31 File " ++ file_words fault.now)))
        (way_of W.Write lines.old) (way_of W.Write lines.new) }
{
    match fault {
        FileFault::NotPart10 => tell_words(file, b"21 NotPart10", b"", lines),
        FileFault::GroupLength => tell_words(file, b"22 GroupLength", b"", lines),
        FileFault::MetaMissing(tag) => {
            tell_words(file, b"23 MetaMissing ", &tag_text(*tag)[..], lines)
        }
        FileFault::MetaUid(tag) => { tell_words(file, b"24 MetaUid ", &tag_text(*tag)[..], lines) }
        FileFault::OtherSyntax(uid) => {
            tell_words(file, b"25 OtherSyntax ", uid.as_bytes(), lines)
        }
        FileFault::Meta(fault) => tell_words(file, b"26 Meta ", set_words(*fault), lines),
        FileFault::Set(fault) => tell_words(file, b"27 Set ", set_words(*fault), lines),
    }
}

fn tell_words<W: Write>(
    file: &[u8],
    words: &[u8],
    of: &[u8],
    lines: &mut LineBuffer<'_, W>,
) -> fmt::Result
    ensures same { lines.new.to.ghost_name ≡ lines.old.to.ghost_name }
    ensures written { Tells result
        (shown_line (mislabelled_parts file.now (codes "31 File " ++ (words.now ++ of.now))))
        (way_of W.Write lines.old) (way_of W.Write lines.new) }
{
    lines.add_line(&[b"MISLABELLED ", file, b" ", b"31 File ", words, of])
}

pub(crate) fn set_words(fault: SetFault) -> &'static [u8]
    ensures { result.now ≡ set_words fault }
{
    match fault {
        SetFault::Truncated => b"1 Truncated",
        SetFault::Order => b"2 Order",
        SetFault::BadVr => b"3 BadVr",
        SetFault::Reserved => b"4 Reserved",
        SetFault::OddLength => b"5 OddLength",
        SetFault::UndefinedLength => b"6 UndefinedLength",
        SetFault::UnexpectedTag => b"7 UnexpectedTag",
        SetFault::BadDelimiter => b"8 BadDelimiter",
        SetFault::Overrun => b"9 Overrun",
        SetFault::TooDeep => b"10 TooDeep",
        SetFault::Memory => b"91 Memory",
    }
}

pub(crate) fn tag_text(tag: Tag) -> [u8; 11]
    ensures { result ≡ text_of tag }
{
    let [a, b, c, d] = four_digits(tag.group);
    let [e, f, g, h] = four_digits(tag.element);
    [b'(', a, b, c, d, b',', e, f, g, h, b')']
}

fn four_digits(number: u16) -> [u8; 4]
    ensures { result ≡ four_digits number }
{
    [
        digit(number / 4096),
        digit(number / 256 % 16),
        digit(number / 16 % 16),
        digit(number % 16),
    ]
}

fn digit(value: u16) -> u8
    requires { value < 16 }
    ensures { result ≡ digit_glyph true value }
{
    let value = value as u8;
    if value < 10 {
        b'0' + value
    } else {
        b'A' + (value - 10)
    }
}

pub(crate) fn tell_differs<W: Write>(
    file: &[u8],
    recorded: &[u8; 32],
    found: &[u8; 32],
    lines: &mut LineBuffer<'_, W>,
) -> fmt::Result
    ensures same { lines.new.to.ghost_name ≡ lines.old.to.ghost_name }
    ensures written { Tells result
        (shown_line (differs_parts file.now (encode_lower recorded.now) (encode_lower found.now)))
        (way_of W.Write lines.old) (way_of W.Write lines.new) }
{
    let (recorded, found) = (digest_text(recorded), digest_text(found));
    tell_digests(file, &recorded, &found, lines)
}

fn tell_digests<W: Write>(
    file: &[u8],
    recorded: &[u8; 64],
    found: &[u8; 64],
    lines: &mut LineBuffer<'_, W>,
) -> fmt::Result
    ensures same { lines.new.to.ghost_name ≡ lines.old.to.ghost_name }
    ensures written { Tells result (shown_line (differs_parts file.now recorded.now found.now))
        (way_of W.Write lines.old) (way_of W.Write lines.new) }
{
    lines.add_line(&[b"DIFFERS ", file, b" ", &recorded[..], b" ", &found[..]])
}
