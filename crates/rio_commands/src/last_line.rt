//! A line that ends a run, and its status.

ghost use Rattle.std.specs.Prelude.{◌≡◌, ◌≤◌};
ghost use Rattle.rio_base.specs.Failures.{Rose};
ghost use Rattle.rio_commands.specs.Command.{WritesLine};

use request_codec::write_text;
use rio_base::Sink;

/// Writes a line, as far as the sink takes it, and answers the status.
pub fn say<K: Sink>(line: &[u8], status: u8, sink: &mut K) -> u8
    ensures status { result ≡ status }
    ensures line { WritesLine (Rose (K.faults sink.old) (K.faults sink.new)) (K.written sink.old) line.now (K.written sink.new) }
    ensures later { K.faults sink.old ≤ K.faults sink.new }
{
    match write_text(line, sink) {
        Ok(()) => status,
        Err(_) => status,
    }
}
