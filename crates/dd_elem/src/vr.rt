ghost use Rattle.std.specs.Prelude.{◌≡◌, ◌≢◌, IfSome, IfNone};
ghost use Rattle.dd_elem.specs.Vr.{letters_of, is_long_of, vr_of};
ghost use Rattle.dd_elem.specs.declared.vr.Vr.{Vr};

/// A value representation: what kind of value an element holds (PS3.5 section 6.2).
#[derive(Clone, Copy, Debug, PartialEq, Eq, Hash)]
pub enum Vr {
    /// Application Entity.
    AE,
    /// Age String.
    AS,
    /// Attribute Tag.
    AT,
    /// Code String.
    CS,
    /// Date.
    DA,
    /// Decimal String.
    DS,
    /// Date Time.
    DT,
    /// Floating Point Double.
    FD,
    /// Floating Point Single.
    FL,
    /// Integer String.
    IS,
    /// Long String.
    LO,
    /// Long Text.
    LT,
    /// Other Byte.
    OB,
    /// Other Double.
    OD,
    /// Other Float.
    OF,
    /// Other Long.
    OL,
    /// Other 64-bit Very Long.
    OV,
    /// Other Word.
    OW,
    /// Person Name.
    PN,
    /// Short String.
    SH,
    /// Signed Long.
    SL,
    /// Sequence of Items.
    SQ,
    /// Signed Short.
    SS,
    /// Short Text.
    ST,
    /// Signed 64-bit Very Long.
    SV,
    /// Time.
    TM,
    /// Unlimited Characters.
    UC,
    /// Unique Identifier (UID).
    UI,
    /// Unsigned Long.
    UL,
    /// Unknown.
    UN,
    /// Universal Resource Identifier.
    UR,
    /// Unsigned Short.
    US,
    /// Unlimited Text.
    UT,
    /// Unsigned 64-bit Very Long.
    UV,
}

impl Vr {
    /// Gives the value representation that two letters name, or None where they name none of the 34.
    pub fn from_letters(letters: [u8; 2]) -> Option<Vr>
        ensures named { IfSome result (λ v. letters_of v ≡ letters) }
        ensures unnamed { IfNone result ((v : Vr) → letters_of v ≢ letters) }
        ensures exact { result ≡ vr_of letters }
    {
        by_letters(letters)
    }

    /// Gives its two letters in Explicit VR.
    pub fn letters(self) -> [u8; 2]
        ensures { result ≡ letters_of self }
    {
        match self {
            Vr::AE => *b"AE",
            Vr::AS => *b"AS",
            Vr::AT => *b"AT",
            Vr::CS => *b"CS",
            Vr::DA => *b"DA",
            Vr::DS => *b"DS",
            Vr::DT => *b"DT",
            Vr::FD => *b"FD",
            Vr::FL => *b"FL",
            Vr::IS => *b"IS",
            Vr::LO => *b"LO",
            Vr::LT => *b"LT",
            Vr::OB => *b"OB",
            Vr::OD => *b"OD",
            Vr::OF => *b"OF",
            Vr::OL => *b"OL",
            Vr::OV => *b"OV",
            Vr::OW => *b"OW",
            Vr::PN => *b"PN",
            Vr::SH => *b"SH",
            Vr::SL => *b"SL",
            Vr::SQ => *b"SQ",
            Vr::SS => *b"SS",
            Vr::ST => *b"ST",
            Vr::SV => *b"SV",
            Vr::TM => *b"TM",
            Vr::UC => *b"UC",
            Vr::UI => *b"UI",
            Vr::UL => *b"UL",
            Vr::UN => *b"UN",
            Vr::UR => *b"UR",
            Vr::US => *b"US",
            Vr::UT => *b"UT",
            Vr::UV => *b"UV",
        }
    }

    /// Says whether its header in Explicit VR has a length of 32 bits after two reserved bytes (PS3.5 section 7.1.2).
    pub fn is_long(self) -> bool
        ensures { result ≡ is_long_of self }
    {
        matches!(
            self,
            Vr::OB
                | Vr::OD
                | Vr::OF
                | Vr::OL
                | Vr::OV
                | Vr::OW
                | Vr::SQ
                | Vr::SV
                | Vr::UC
                | Vr::UN
                | Vr::UR
                | Vr::UT
                | Vr::UV
        )
    }
}

fn by_letters(letters: [u8; 2]) -> Option<Vr>
    ensures named { IfSome result (λ v. letters_of v ≡ letters) }
    ensures unnamed { IfNone result ((v : Vr) → letters_of v ≢ letters) }
{
    match &letters {
        b"AE" => Some(Vr::AE),
        b"AS" => Some(Vr::AS),
        b"AT" => Some(Vr::AT),
        b"CS" => Some(Vr::CS),
        b"DA" => Some(Vr::DA),
        b"DS" => Some(Vr::DS),
        b"DT" => Some(Vr::DT),
        b"FD" => Some(Vr::FD),
        b"FL" => Some(Vr::FL),
        b"IS" => Some(Vr::IS),
        b"LO" => Some(Vr::LO),
        b"LT" => Some(Vr::LT),
        b"OB" => Some(Vr::OB),
        b"OD" => Some(Vr::OD),
        b"OF" => Some(Vr::OF),
        b"OL" => Some(Vr::OL),
        b"OV" => Some(Vr::OV),
        b"OW" => Some(Vr::OW),
        b"PN" => Some(Vr::PN),
        b"SH" => Some(Vr::SH),
        b"SL" => Some(Vr::SL),
        b"SQ" => Some(Vr::SQ),
        b"SS" => Some(Vr::SS),
        b"ST" => Some(Vr::ST),
        b"SV" => Some(Vr::SV),
        b"TM" => Some(Vr::TM),
        b"UC" => Some(Vr::UC),
        b"UI" => Some(Vr::UI),
        b"UL" => Some(Vr::UL),
        b"UN" => Some(Vr::UN),
        b"UR" => Some(Vr::UR),
        b"US" => Some(Vr::US),
        b"UT" => Some(Vr::UT),
        b"UV" => Some(Vr::UV),
        _ => None,
    }
}
