ghost use Rattle.std.specs.Prelude.{◌≡◌, ◌≤◌, None, length};

/// Says what a command line asks for, with the fields that its command has.
#[derive(Debug, Drop)]
pub enum Request {
    /// `index OUT SRC...`
    Index(IndexRequest),
    /// `merge OUT SET...`
    Merge(MergeRequest),
    /// `withdraw OUT SET UID...`
    Withdraw(WithdrawRequest),
    /// `stage PILE SRC...`
    Stage(StageRequest),
    /// `publish OUT PILE...`
    Publish(PublishRequest),
    /// `check SET`
    Check(CheckRequest),
    /// `list SET`
    List(ListRequest),
}

impl Request {
    ghost use Rattle.std.specs.Prelude.{option_map, string_bytes};
    ghost use Rattle.dd_line.specs.Requests.{id_of, new_set_of, uid_of};

    /// Gives the file-set to make, for `index`, `merge`, `withdraw` and `publish`.
    pub fn new_set(&self) -> Option<&NewSet>
        ensures { new_set_of self.now ≡ option_map (λ set. set.now) result }
    {
        match self {
            Request::Index(index) => Some(&index.new_set),
            Request::Merge(merge) => Some(&merge.new_set),
            Request::Withdraw(withdraw) => Some(&withdraw.new_set),
            Request::Publish(publish) => Some(&publish.new_set),
            Request::Stage(_) | Request::Check(_) | Request::List(_) => None,
        }
    }

    /// Gives the ID of that file-set, as the line spells it.
    pub fn id(&self) -> Option<&String>
        ensures { id_of self.now ≡ option_map (λ id. string_bytes id.now) result }
    {
        match self {
            Request::Index(index) => index.new_set.id.as_ref(),
            Request::Merge(merge) => merge.new_set.id.as_ref(),
            Request::Withdraw(withdraw) => withdraw.new_set.id.as_ref(),
            Request::Publish(publish) => publish.new_set.id.as_ref(),
            Request::Stage(_) | Request::Check(_) | Request::List(_) => None,
        }
    }

    /// Gives the UID of that file-set, as the line spells it.
    pub fn uid(&self) -> Option<&String>
        ensures { uid_of self.now ≡ option_map (λ uid. string_bytes uid.now) result }
    {
        match self {
            Request::Index(index) => index.new_set.uid.as_ref(),
            Request::Merge(merge) => merge.new_set.uid.as_ref(),
            Request::Withdraw(withdraw) => withdraw.new_set.uid.as_ref(),
            Request::Publish(publish) => publish.new_set.uid.as_ref(),
            Request::Stage(_) | Request::Check(_) | Request::List(_) => None,
        }
    }
}

/// Says how a new file-set is made.
#[derive(Debug, Drop)]
pub struct NewSet {
    /// The folder that it is made in.
    pub out: String,
    /// As the line spells it.
    pub id: Option<String>,
    /// As the line spells it.
    pub uid: Option<String>,
    /// The most bytes that its directory may have: 4294967295 where the line does not say.
    pub max_bytes: u32,
    /// `--strict`: refused where something would be left out.
    pub strict: bool,
    /// `--dry-run`: says what would be made, and makes nothing.
    pub dry_run: bool,
    /// `--quiet`: no progress and no hints are shown.
    pub quiet: bool,
    /// `--verbose`: hints are shown where there is no terminal, too.
    pub verbose: bool,
    /// `--json`: each line is printed as a JSON object.
    pub json: bool,
}

/// Lists what a new file-set or pile is made of: one path at least, or a file of names.
#[derive(Debug, Drop)]
pub struct Sources {
    /// The paths, in the order of the line.
    pub words: Vec<String>,
    /// `--files0-from`: the file that holds further paths, each ended by a zero byte.
    pub files0_from: Option<String>,
    ghost some: { files0_from ≡ None → 1 ≤ length words.items },
}

/// Asks for a file-set of files, with copies of them and its directory.
#[derive(Debug, Drop)]
pub struct IndexRequest {
    pub new_set: NewSet,
    pub sources: Sources,
    /// `--keep-going`: a source that can't be opened or read is skipped.
    pub keep_going: bool,
}

/// Asks for a file-set of other file-sets.
#[derive(Debug, Drop)]
pub struct MergeRequest {
    pub new_set: NewSet,
    /// The folders of the other file-sets.
    pub sets: Sources,
    /// `--link`: images get hard links in place of copies.
    pub link: bool,
}

/// Asks for a file-set of one file-set, without some of its images.
#[derive(Debug, Drop)]
pub struct WithdrawRequest {
    pub new_set: NewSet,
    /// The folder of the other file-set.
    pub set: String,
    /// The SOP Instance UIDs of the images, as the line spells them, in its order.
    pub instances: Vec<String>,
    ghost some: { 1 ≤ length instances.items },
}

/// Asks for a pile of files, with copies of them and a list of what they are.
#[derive(Debug, Drop)]
pub struct StageRequest {
    /// The folder that the pile is made in.
    pub pile: String,
    pub sources: Sources,
    /// `--from`: the folder in which the sources and the file of names are looked up.
    pub from: Option<String>,
    /// `--keep-going`: a source that can't be opened or read is skipped.
    pub keep_going: bool,
    /// `--quiet`: no progress and no hints are shown.
    pub quiet: bool,
    /// `--verbose`: hints are shown where there is no terminal, too.
    pub verbose: bool,
    /// `--json`: each line is printed as a JSON object.
    pub json: bool,
}

/// Asks for a file-set of piles.
#[derive(Debug, Drop)]
pub struct PublishRequest {
    pub new_set: NewSet,
    /// The folders of the piles.
    pub piles: Sources,
    /// `--from`: the folder in which the folder of the new file-set and the file of names are looked up.
    pub from: Option<String>,
    /// `--link`: images get hard links in place of copies.
    pub link: bool,
}

/// Asks to compare the files of a file-set with its directory.
#[derive(Debug, Drop)]
pub struct CheckRequest {
    /// The folder of the file-set.
    pub set: String,
    /// `--keys`: what each image says of itself is compared with its record, too.
    pub keys: bool,
    /// `--strict`: a file of which no digest is recorded is found, too.
    pub strict: bool,
    /// `--quiet`: no progress and no hints are shown.
    pub quiet: bool,
    /// `--verbose`: hints are shown where there is no terminal, too.
    pub verbose: bool,
    /// `--json`: each line is printed as a JSON object.
    pub json: bool,
}

/// Asks for a list of the records of a directory.
#[derive(Debug, Drop)]
pub struct ListRequest {
    /// The folder of the file-set.
    pub set: String,
    /// `--long`: names, dates, times, modalities and numbers are printed, too.
    pub long: bool,
    /// `--verbose`: hints are shown where there is no terminal, too.
    pub verbose: bool,
    /// `--json`: each line is printed as a JSON object.
    pub json: bool,
}
