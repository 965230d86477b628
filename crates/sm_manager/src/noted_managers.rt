ghost use Rattle.std.specs.Prelude.{◌≡◌, ◌<◌, vec_capacity, vec_len};
ghost use Rattle.sm_manager.specs.NotedManagers.{with_seen};

use sm_state::SeenManager;
use sweep::Answer;

/// Appends the manager that `answer` shows, if it shows one, to `seen`. Does not allocate.
pub(crate) fn note_seen(seen: &mut Vec<SeenManager>, answer: &Answer)
    requires { vec_len seen.old < vec_capacity seen.old }
    ensures { seen.new.items ≡ with_seen answer.now seen.old.items }
{
    if let Answer::Seen(guid, port, info) = *answer {
        seen.push_reserved(SeenManager { guid, port, info });
    }
}
