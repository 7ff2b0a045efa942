use dd_elem::Uid;
use dd_keys::is_image_class;
use std::alloc::Global;
use std::test::Fail;

const STORAGE: &str = "1.2.840.10008.5.1.4.1.1";

/// The last parts of the 23 classes that are taken.
const TAKEN: &str = ".1 .1.1 .1.1.1 .1.2 .1.2.1 .2 .2.1 .3.1 .4 .4.1 .6.1 .7 .7.1 .7.2 .7.3 .7.4 \
                     .12.1 .12.2 .20 .77.1.1 .77.1.2 .77.1.4 .128";

/// The last parts of some that are not.
const NOT_TAKEN: &str = ".1.1.1.1 .1.3 .3 .5 .6 .11 .12 .77.1 .77.1.3 .88.11 .12.8";

fn first_other(alloc: Global, rests: &'static str, taken: bool) -> Result<Option<&str>, Fail> {
    for rest in rests.split(' ') {
        let text = format!(in alloc; "{STORAGE}{rest}")?;
        if is_image_class(&Uid::new(text.as_bytes())?) != taken {
            return Ok(Some(rest));
        }
    }
    Ok(None)
}

#[test]
fn image_classes(rt: HostRuntime) -> Result<(), Fail> {
    assert_eq!(rt; first_other(rt.alloc(), TAKEN, true)?, None);
    assert_eq!(rt; first_other(rt.alloc(), NOT_TAKEN, false)?, None);
    assert!(rt; !is_image_class(&Uid::new(b"1.2.840.10008.1.3.10")?));
    Ok(())
}
