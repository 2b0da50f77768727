// The register: the listed chunks of a recording, one entry for each, in memory that the caller lends.
#![tactic(auto)]

mod finder;

ghost use Rattle.std.specs.Prelude.{◌≡◌, length};
ghost use Rattle.chunk_register.specs.Register.{list_reply, list_room};

use base::Words;
use chunk::Entry;
use chunk_reading::Survey;

// Lists the chunks of a recording, the k-th in the k-th entry; the entries past the last keep their contents. A refusal counts no chunks, so it
// stores nothing. docs/PROMISES.md names the form: a thin function over a finder.
pub fn list(recording: &[u16], sync: u16, register: &mut [Entry]) -> Survey
    ensures reply { result ≡ list_reply sync recording.now (length register.old) }
    ensures entries { register.new ≡ list_room sync recording.now register.old }
{
    let reply = finder::look(recording, sync, register.len());
    let mut at = Words(0);
    for entry in &mut register[..reply.chunks] {
        let step = finder::step_from(recording, sync, at);
        *entry = step.entry;
        at = step.end;
    }
    reply
}
