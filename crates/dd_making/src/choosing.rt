//! The label that a caller asks for.

ghost use Rattle.std.specs.Prelude.{IfErr, IfOk};
ghost use Rattle.dd_making.specs.Merges.{AsksFor, AsksForNone};
ghost use Rattle.dd_making.specs.Refusals.{IsFault};

use dd_calls::Answer;
use dd_elem::{SetId, Uid};
use dd_engine::Choice;

/// Makes the choice of a label with this File-set ID, which may be empty, and this UID: where it is empty too, the one
/// that follows from the directory. 72 BadSetId where the first is no File-set ID, and then 71 BadUid where the second
/// is neither empty nor a UID.
pub(crate) fn choice_of(id: &[u8], uid: &[u8]) -> Result<Choice, Answer>
    ensures asks { IfOk result (AsksFor id.now uid.now) }
    ensures none { IfErr result (AsksForNone id.now uid.now) }
    ensures fault { IfErr result (λ answer. IsFault answer.fault) }
{
    let Ok(id) = SetId::new(id) else {
        return Err(Answer::of_number(72));
    };
    if uid.is_empty() {
        return Ok(Choice { id, uid: None });
    }
    match Uid::new(uid) {
        Ok(uid) => Ok(Choice { id, uid: Some(uid) }),
        Err(_) => Err(Answer::of_number(71)),
    }
}
