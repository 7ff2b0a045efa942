ghost use Rattle.std.specs.Prelude.{◌≡◌, ◌↔◌, IsTrue, Contains};
ghost use Rattle.std.specs.List.{list_any};
ghost use Rattle.std.specs.Str.{bytes_eq};
ghost use Rattle.dd_version.specs.Classes.{image_classes, is_image_class};

use dd_elem::Uid;

/// The storage SOP classes whose files are taken: an IMAGE record describes each (PS3.3 section F.5.4).
const IMAGE_CLASSES: [&[u8]; 23] = [
    b"1.2.840.10008.5.1.4.1.1.1", // Computed Radiography Image
    b"1.2.840.10008.5.1.4.1.1.1.1", // Digital X-Ray Image, for presentation
    b"1.2.840.10008.5.1.4.1.1.1.1.1", // Digital X-Ray Image, for processing
    b"1.2.840.10008.5.1.4.1.1.1.2", // Digital Mammography X-Ray Image, for presentation
    b"1.2.840.10008.5.1.4.1.1.1.2.1", // Digital Mammography X-Ray Image, for processing
    b"1.2.840.10008.5.1.4.1.1.2", // CT Image
    b"1.2.840.10008.5.1.4.1.1.2.1", // Enhanced CT Image
    b"1.2.840.10008.5.1.4.1.1.3.1", // Ultrasound Multi-frame Image
    b"1.2.840.10008.5.1.4.1.1.4", // MR Image
    b"1.2.840.10008.5.1.4.1.1.4.1", // Enhanced MR Image
    b"1.2.840.10008.5.1.4.1.1.6.1", // Ultrasound Image
    b"1.2.840.10008.5.1.4.1.1.7", // Secondary Capture Image
    b"1.2.840.10008.5.1.4.1.1.7.1", // Multi-frame Single Bit Secondary Capture Image
    b"1.2.840.10008.5.1.4.1.1.7.2", // Multi-frame Grayscale Byte Secondary Capture Image
    b"1.2.840.10008.5.1.4.1.1.7.3", // Multi-frame Grayscale Word Secondary Capture Image
    b"1.2.840.10008.5.1.4.1.1.7.4", // Multi-frame True Color Secondary Capture Image
    b"1.2.840.10008.5.1.4.1.1.12.1", // X-Ray Angiographic Image
    b"1.2.840.10008.5.1.4.1.1.12.2", // X-Ray Radiofluoroscopic Image
    b"1.2.840.10008.5.1.4.1.1.20", // Nuclear Medicine Image
    b"1.2.840.10008.5.1.4.1.1.77.1.1", // VL Endoscopic Image
    b"1.2.840.10008.5.1.4.1.1.77.1.2", // VL Microscopic Image
    b"1.2.840.10008.5.1.4.1.1.77.1.4", // VL Photographic Image
    b"1.2.840.10008.5.1.4.1.1.128", // Positron Emission Tomography Image
];

/// Says whether files of this SOP class are taken (PS3.4 section B.5).
pub fn is_image_class(class: &Uid) -> bool
    ensures form { IsTrue result ↔ Contains image_classes class.now }
    ensures test { result ≡ is_image_class class.now }
{
    is_listed(class.as_bytes())
}

fn is_listed(class: &[u8]) -> bool
    ensures { result ≡ list_any (λ known. bytes_eq known.now class.now) IMAGE_CLASSES }
{
    IMAGE_CLASSES.contains(&class)
}
