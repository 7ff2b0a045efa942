use dd_keys::{Parts, version_of};
use dd_vectors::{ask_all, text_of, v1, v1_encapsulated, v1_implicit, v1_with};
use std::alloc::Global;
use std::test::Fail;

/// The SHA-256 of V1, of V1 in Implicit VR and of V1 with pixel data in fragments.
const DIGESTS: &str = "\
v1 > 900e75e1c153f87b21e09f9db68aef627f2dd320eb3afb1f2574594e6c862a92
v1 implicit > e10bec66fe1be47ab72d26a9e484a07318910813ff740d20298322b503bed3d2
v1 encapsulated > 756287360dde40dc344fec2c491cc6e36d76ca14ce56951a42db23f73c75c1fa";

/// These three, V1 with some keys empty or absent, and V1 with all keys absent that may be: the parts, in the order of
/// their fields. In Implicit VR a Study Instance UID stands within a sequence, where it is no key.
const KEYS: &str = "\
v1 > 'P1 'DOE^JOHN ' '1.2.3 '20240115 '101500 ' ' '1 ' '1.2.3.4 'CT '1 '1 \
'1.2.840.10008.5.1.4.1.1.2 '1.2.840.10008.1.2.1 '1.2.3.4.5
v1 implicit > 'P1 'DOE^JOHN ' '1.2.3 '20240115 '101500 ' ' '1 ' '1.2.3.4 'CT '1 '1 \
'1.2.840.10008.5.1.4.1.1.2 '1.2.840.10008.1.2 '1.2.3.4.5
v1 encapsulated > 'P1 'DOE^JOHN ' '1.2.3 '20240115 '101500 ' ' '1 ' '1.2.3.4 'CT '1 '1 \
'1.2.840.10008.5.1.4.1.1.2 '1.2.840.10008.1.2.4.90 '1.2.3.4.5
0010,0020 LO; 0020,0010 absent; 0020,0013 IS '__ > \
'NOID 'DOE^JOHN ' '1.2.3 '20240115 '101500 ' ' '0 ' '1.2.3.4 'CT '1 '0 \
'1.2.840.10008.5.1.4.1.1.2 '1.2.840.10008.1.2.1 '1.2.3.4.5
0008,0020 absent; 0008,0030 absent; 0008,0060 absent; 0010,0010 absent; 0010,0020 absent; \
0020,0010 absent; 0020,0011 absent; 0020,0013 absent > \
'NOID ' ' '1.2.3 '19000101 '000000 ' ' '0 ' '1.2.3.4 'OT '0 '0 \
'1.2.840.10008.5.1.4.1.1.2 '1.2.840.10008.1.2.1 '1.2.3.4.5";

pub(crate) fn file_of(alloc: Global, name: &str) -> Result<Vec<u8>, Fail> {
    match name {
        "v1" => v1(alloc),
        "v1 implicit" => v1_implicit(alloc),
        "v1 encapsulated" => v1_encapsulated(alloc),
        changes => v1_with(alloc, changes),
    }
}

fn digest(alloc: Global, question: &str) -> Result<String, Fail> {
    let bytes = file_of(alloc, question)?;
    let version = version_of(alloc, &bytes)?;
    Ok(hex::encode(alloc, version.parts().digest)?)
}

fn first_keys(parts: &Parts) -> [&[u8]; 10] {
    let (patient, study) = (&parts.patient, &parts.study);
    [
        patient.id.as_bytes(),
        patient.name.as_bytes(),
        patient.charset.as_bytes(),
        study.uid.as_bytes(),
        study.date.as_bytes(),
        study.time.as_bytes(),
        study.accession.as_bytes(),
        study.description.as_bytes(),
        study.id.as_bytes(),
        study.charset.as_bytes(),
    ]
}

fn last_keys(parts: &Parts) -> [&[u8]; 7] {
    [
        parts.series.uid.as_bytes(),
        parts.series.modality.as_bytes(),
        parts.series.number.as_bytes(),
        parts.number.as_bytes(),
        parts.class.as_bytes(),
        parts.transfer.as_bytes(),
        parts.instance.as_bytes(),
    ]
}

fn push_keys(alloc: Global, text: &mut String, keys: &[&[u8]]) -> Result<(), Fail> {
    for key in keys {
        if !text.is_empty() {
            text.push(' ')?;
        }
        text.push_str(text_of(alloc, key)?.as_str())?;
    }
    Ok(())
}

pub(crate) fn text_of_keys(alloc: Global, parts: &Parts) -> Result<String, Fail> {
    let mut text = String::new(alloc);
    push_keys(alloc, &mut text, &first_keys(parts))?;
    push_keys(alloc, &mut text, &last_keys(parts))?;
    Ok(text)
}

fn keys(alloc: Global, question: &str) -> Result<String, Fail> {
    let bytes = file_of(alloc, question)?;
    let version = version_of(alloc, &bytes)?;
    text_of_keys(alloc, version.parts())
}

#[test]
fn a_version_has_the_digest_and_the_keys_of_its_file(rt: HostRuntime) -> Result<(), Fail> {
    ask_all(rt.alloc(), DIGESTS, digest)?;
    ask_all(rt.alloc(), KEYS, keys)
}
