ghost use Rattle.std.specs.Prelude.{◌↔◌, IsTrue};
ghost use Rattle.dd_version.specs.Filing.{FiledAs};

use crate::parts::Parts;

/// Says whether the found version is filed as the planned one: all UIDs, the digest, Instance Number and Patient ID
/// are equal. Other keys are not compared: a directory may have them from another image of the same patient, study or
/// series.
pub fn is_filed_as(found: &Parts, planned: &Parts) -> bool
    ensures { IsTrue result ↔ FiledAs planned.now found.now }
{
    found.digest[..] == planned.digest[..]
        && found.instance.as_bytes() == planned.instance.as_bytes()
        && found.class.as_bytes() == planned.class.as_bytes()
        && found.transfer.as_bytes() == planned.transfer.as_bytes()
        && found.number.as_bytes() == planned.number.as_bytes()
        && found.patient.id.as_bytes() == planned.patient.id.as_bytes()
        && found.study.uid.as_bytes() == planned.study.uid.as_bytes()
        && found.series.uid.as_bytes() == planned.series.uid.as_bytes()
}
