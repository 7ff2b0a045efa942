ghost use Rattle.std.specs.Prelude.{◌≡◌, ◌⊎◌, [], IfErr, IfOk, IsErr, IsOk, string_bytes, unwrap_or};
ghost use Rattle.dd_elem.specs.Uid.{IsUid};
ghost use Rattle.dd_line.specs.Line.{words_of};
ghost use Rattle.dd_line.specs.Requests.{RequestsBadName, id_of, instances_of, uid_of};
ghost use Rattle.dicomdir.specs.Names.{HasBadId, HasBadLabel, HasBadOwnUid, HasBadUid, choice_by};
ghost use Rattle.dd_faults.specs.Refusal.{IsBadLine};

use dd_elem::{SetId, Uid};
use dd_engine::Choice;
use dd_faults::ProgramFault;
use dd_line::Request;
use std::alloc::Global;

/// The label and the UIDs that a command line gives.
#[derive(Debug, Drop)]
pub(crate) struct Names {
    pub(crate) choice: Choice,
    pub(crate) withdrawn: Vec<Uid>,
}

/// Reads the names of a request: the ID, then the UID, then the UIDs to withdraw, in their order. Refused by the first
/// name of the wrong form, or as Memory where an allocation was refused.
pub(crate) fn names_of(alloc: Global, request: &Request) -> Result<Names, ProgramFault>
    ensures bad { IfErr result (λ fault. IsBadLine fault → RequestsBadName request.now) }
    ensures fault { IfErr result (λ fault. IsBadLine fault ⊎ (fault ≡ ProgramFault.Memory)) }
    ensures good { IsOk result → ¬ RequestsBadName request.now }
    ensures chooses { IfOk result (λ names. names.choice
        ≡ choice_by (id_of request.now) (uid_of request.now)) }
    ensures withdraws { IfOk result (λ names.
        names.withdrawn.items ≡ words_of (instances_of request.now)) }
{
    let choice = choice_of(request)?;
    let withdrawn = uids_of(alloc, instances_in(request))?;
    Ok(Names { choice, withdrawn })
}

fn instances_in(request: &Request) -> &[String]
    ensures { result.now ≡ instances_of request.now }
{
    match request {
        Request::Withdraw(withdraw) => withdraw.instances.as_slice(),
        Request::Index(_)
        | Request::Merge(_)
        | Request::Stage(_)
        | Request::Publish(_)
        | Request::Check(_)
        | Request::List(_) => &[],
    }
}

fn choice_of(request: &Request) -> Result<Choice, ProgramFault>
    ensures bad { IsErr result → HasBadLabel request.now }
    ensures fault { IfErr result IsBadLine }
    ensures good { IsOk result → ¬ HasBadLabel request.now }
    ensures chooses { IfOk result (λ choice. choice
        ≡ choice_by (id_of request.now) (uid_of request.now)) }
{
    let id = match set_id_of(request) {
        Ok(id) => id,
        Err(fault) => return Err(fault),
    };
    match own_uid_of(request) {
        Ok(uid) => Ok(Choice { id, uid }),
        Err(fault) => Err(fault),
    }
}

fn set_id_of(request: &Request) -> Result<SetId, ProgramFault>
    ensures bad { IsErr result → HasBadId request.now }
    ensures fault { IfErr result IsBadLine }
    ensures good { IsOk result → ¬ HasBadId request.now }
    ensures id { IfOk result (λ id. id ≡ unwrap_or (id_of request.now) []) }
{
    let id = match request.id() {
        Some(id) => id.as_bytes(),
        None => b"",
    };
    match SetId::new(id) {
        Ok(id) => Ok(id),
        Err(bad) => Err(ProgramFault::SetId(bad)),
    }
}

fn own_uid_of(request: &Request) -> Result<Option<Uid>, ProgramFault>
    ensures bad { IsErr result → HasBadOwnUid request.now }
    ensures fault { IfErr result IsBadLine }
    ensures good { IsOk result → ¬ HasBadOwnUid request.now }
    ensures uid { IfOk result (λ uid. uid ≡ uid_of request.now) }
{
    match request.uid() {
        None => Ok(None),
        Some(uid) => match uid_from(uid) {
            Ok(uid) => Ok(Some(uid)),
            Err(fault) => Err(fault),
        },
    }
}

fn uids_of(alloc: Global, mut texts: &[String]) -> Result<Vec<Uid>, ProgramFault>
    ensures bad { IfErr result (λ fault. IsBadLine fault → HasBadUid texts.entry.now) }
    ensures fault { IfErr result (λ fault. IsBadLine fault ⊎ (fault ≡ ProgramFault.Memory)) }
    ensures good { IsOk result → ¬ HasBadUid texts.entry.now }
    ensures uids { IfOk result (λ uids. uids.items ≡ words_of texts.entry.now) }
{
    let mut uids = Vec::with_capacity(alloc, texts.len())?;
    while let [text, rest @ ..] = texts {
        let uid = uid_from(text)?;
        match uids.push(uid) {
            Ok(()) => texts = rest,
            Err(_) => return Err(ProgramFault::Memory),
        }
    }
    Ok(uids)
}

fn uid_from(text: &String) -> Result<Uid, ProgramFault>
    ensures bad { IsErr result → ¬ IsUid (string_bytes text.now) }
    ensures fault { IfErr result IsBadLine }
    ensures good { IsOk result → IsUid (string_bytes text.now) }
    ensures value { IfOk result (λ uid. uid ≡ string_bytes text.now) }
{
    match Uid::new(text.as_bytes()) {
        Ok(uid) => Ok(uid),
        Err(bad) => Err(ProgramFault::Uid(bad)),
    }
}
