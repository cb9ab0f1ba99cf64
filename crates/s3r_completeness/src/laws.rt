//! What a run comes to in which no call on a volume failed.

ghost use Rattle.s3r_completeness.specs.Completeness.{SoundRunsAnswerNoFault};

use s3r_service::runs_compose;

/// Where a run starts from volumes that stand for lawful histories which agree, and no call on a volume fails in it, each request
/// has the machine's answer, unless a volume has no room or there is no memory: no volume's fault, no damage and no disagreement is
/// answered, and no turn of the copier is missed.
pub fn undisturbed_runs_answer_no_fault()
    ensures { SoundRunsAnswerNoFault }
{
    runs_compose();
}
