//! What the help of each command ends with.

pub(crate) const PROGRAM: &str = "\
Examples:
  dicomdir index DISC1 images/*         makes the file-set DISC1 of these files
  dicomdir list DISC1                   shows what its DICOMDIR says
  dicomdir check DISC1                  compares its files with its DICOMDIR
  dicomdir merge BOTH DISC1 DISC2       makes one file-set of two
  dicomdir withdraw NEW DISC1 1.2.3.4   makes one without this image

Status:
  0  The work is done.
  1  It was refused: the error output says why, as FAULT <path>: <fault>.
  2  The command line has a mistake. Nothing was read or made.
  3  check found something, or a source that can't be read was skipped.

'dicomdir COMMAND --help' says more of a command. The manual page dicomdir(1)
and docs/FAULTS.md explain each fault and what to do about it.";

pub(crate) const INDEX: &str = "\
Examples:
  dicomdir index DISC1 images/* --id DISC1
  find DIR -type f -print0 | dicomdir index DISC1 --files0-from -

Lines of the output:
  SKIP <path>: <fault>            This source is left out. The others go on.
  NOTE <path>: left out for <path>: same SOP Instance UID <uid>, other bytes
                                  Two sources say that they are one image.
  NOTE -: Patient ID <id> has <n> names: <name>, <name>, ..
                                  The record of the patient gets the first.
  NOTE <path>: has <uid>          This source is one of the two of a fault 41.
  DONE <n> instances, <b> bytes   The file-set is whole. Its DICOMDIR has <b>
                                  bytes. Compare <n> with your images: the
                                  status is 0 where sources were left out, too,
                                  and 3 where --keep-going met an unread one.
                                  With --strict it is 1 after SKIP and NOTE
                                  lines (98 Strict), and nothing was made.
  PLAN <n> instances, <b> bytes, <t> bytes of images
                                  With --dry-run, in place of DONE. Nothing was
                                  made; the file-set would have these.

Sources:
  Left out is what is no DICOM file, is no image of a class that is taken (CR,
  DX, CT, MR, US, PET, NM, XA, RF, secondary capture, visible light and more),
  has a transfer syntax that is not taken (deflated, big endian, MPEG), or
  lacks a key. A folder is refused: name its files. Of two files with one SOP
  Instance UID, the one with the greater SHA-256 is kept.
  --files0-from FILE adds the names that FILE holds, each ended by a zero byte.
  Where FILE is -, they are read from the standard input.

An ID has up to 16 characters of A to Z, 0 to 9 and _.";

pub(crate) const MERGE: &str = "\
Example:
  dicomdir merge BOTH DISC1 DISC2

Lines of the output:
  NOTE <set>: <u> records are not reached
                                  No offset leads to them: they are left out.
  NOTE <path>: withdrawn in <set>: <uid>
                                  That set withdraws the image, which is left
                                  out. It is printed with --strict alone.
  NOTE ..                         See 'dicomdir index --help'. With --strict
                                  the status is then 1, after
                                  FAULT -: 98 Strict, and nothing was made.
  DONE <n> instances, <b> bytes   The file-set is whole. Its DICOMDIR has <b>
                                  bytes.
  PLAN <n> instances, <b> bytes   With --dry-run, in place of DONE. Nothing was
                                  made; the file-set would have these.

Each image is compared with its record while it is copied. The order of the
file-sets does not matter. Run 'dicomdir check' on each of them first.
With --link an image is not copied: its file in SET gets a hard link in OUT,
and is not read or compared with its record. Use it only for file-sets that you
have just made yourself. Whoever changes the file by one name changes it under
both. Where the system gives no hard link, as on another file system, the file
is copied and compared.
--files0-from FILE adds the names that FILE holds, each ended by a zero byte.
Where FILE is -, they are read from the standard input.

An ID has up to 16 characters of A to Z, 0 to 9 and _.";

pub(crate) const WITHDRAW: &str = "\
Example:
  dicomdir withdraw NEW DISC1 1.2.840.113619.2.1.5

Lines of the output:
  NOTE -: <uid> is in no record   SET has no image with this UID. It is
                                  withdrawn all the same.
  NOTE ..                         See 'dicomdir merge --help'. With --strict
                                  the status is then 1, after
                                  FAULT -: 98 Strict, and nothing was made.
  DONE <n> instances, <b> bytes   The file-set is whole. Its DICOMDIR has <b>
                                  bytes.
  PLAN <n> instances, <b> bytes   With --dry-run, in place of DONE. Nothing was
                                  made; the file-set would have these.

Whatever file-set NEW is merged with, no image with these UIDs is kept.

An ID has up to 16 characters of A to Z, 0 to 9 and _.";

pub(crate) const STAGE: &str = "\
Example:
  dicomdir stage PILE1 images/a*        these two may run at the same time,
  dicomdir stage PILE2 images/b*        on two computers, too
  dicomdir publish --link DISC1 PILE1 PILE2

Lines of the output:
  DONE <n> sources, <s> skipped, <b> bytes of images
                                  The pile is whole. Publish will skip <s> of
                                  the <n> sources. The others have <b> bytes.

Each SRC is copied byte for byte, to PILE/000/000001 and so on. PILE/STAGED is a
list that names it, and says what it is or what is wrong with it. No SKIP or
NOTE is printed: publish prints them, as index does. A SRC that can't be opened
or read ends the run, and PILE then has no list. Remove it and take a new one.
With --keep-going such a SRC is listed, too, and the status is 3: publish skips
it, and ends with 3.
--from FOLDER looks up SRC and FILE in FOLDER. PILE is not looked up there.
--files0-from FILE adds the names that FILE holds, each ended by a zero byte.
Where FILE is -, they are read from the standard input.";

pub(crate) const PUBLISH: &str = "\
Example:
  dicomdir publish --link DISC1 PILE1 PILE2

Lines of the output:
  SKIP, NOTE, DONE and PLAN are those of 'dicomdir index' on all sources of the
  piles, in their order. They name the sources as stage was given them. The
  status is 3 where 'stage --keep-going' could not read one.

The file-set is the one that index makes of these sources. Each image is
compared with the list of its pile while it is copied.
With --link an image is not copied: its file in PILE gets a hard link in OUT,
and is not read. It must have the length that the list says. Use it for piles
that you have just made yourself. Where the system gives no hard link, as on
another file system, the file is copied and compared.
'rm -r PILE' removes a pile that is published, and leaves OUT whole.
--from FOLDER looks up OUT and FILE in FOLDER. PILE is not looked up there.
--files0-from FILE adds the piles that FILE names, each name ended by a zero
byte. Where FILE is -, they are read from the standard input.

An ID has up to 16 characters of A to Z, 0 to 9 and _.";

pub(crate) const CHECK: &str = "\
Lines of the output:
  OK <n> records                  Each file is there and can be read. It is
                                  unchanged, where its record has a digest.
  MISSING <id>                    The file with this File ID is not there.
  UNREADABLE <id>                 A read of it failed, or it is too long.
  DIFFERS <id> <digest> <digest>  Its SHA-256 is not the recorded one.
  MISLABELLED <id> <tag>          It says something else at this tag (--keys).
  NODIGEST <id>                   Its record has no digest (--strict), and
                                  nothing else is found of it.
  BADID <offset>                  The record there has no proper File ID.
  UNREACHED <n>                   No offset leads to <n> records.
  BROKEN <fault>                  The DICOMDIR can't be read.

Only a DICOMDIR of this program has digests. In other file-sets an image that
was emptied or cut passes. --keys opens and parses each image, and so finds an
empty one, and one that ends within an element. --strict finds each file that
has no digest to compare.

The status is 0 after OK and 3 after any other line.";

pub(crate) const LIST: &str = "\
Each line has the offset of a record, its type, and what it is known by: its
Patient ID, Study or Series Instance UID, or File ID. It is indented by level,
and ends in 'inactive' where the record is not in use. WITHDRAWN lines name the
instances that no merge brings back. The last line counts the records that the
offsets lead to, and the records that no offset leads to.

With --long the first line is FILE-SET <id> <uid>, and these values follow a
' | ': the patient's name; the date, time and description of a study; the
modality and number of a series; the number of an image; - for none.";
