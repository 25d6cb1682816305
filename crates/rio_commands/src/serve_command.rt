//! The command `serve`: lines served over a pair of files.

ghost use Rattle.std.specs.Prelude.{◌≡◌, ◌≢◌, ◌≤◌, None};
ghost use Rattle.std.specs.String.{string_bytes};
ghost use Rattle.rio_commands.specs.Outside.{benched, outside};
ghost use Rattle.rio_commands.specs.Serve.{ServeRuns};

use crate::serve_lines::tell_end;
use block_disk::HostDisk;
use machine_bench::Bench;
use pair_files::{PairNames, work_on_pair};
use pair_serving::Serving;
use request_codec::ROOM_BYTES;
use rio_base::{Host, Sink, Source};
use std::alloc::Global;

/// Serves the lines of a source over a pair of files, on a machine of the bench, which stops after `stop` steps if that is given.
/// Writes a line on how that ended, answers the status, and hands the host back.
pub fn serve_pair<S: Source, K: Sink, H: Host, B: Bench<HostDisk<H>>>(
    alloc: Global,
    names: &PairNames<'_>,
    stop: Option<u64>,
    source: &mut S,
    sink: &mut K,
    host: H,
    bench: &mut B,
) -> (u8, H)
    requires unmade { B.pages bench.old ≡ None }
    requires two { string_bytes names.now.image.now ≢ string_bytes names.now.disk.now }
    ensures runs { ServeRuns (string_bytes names.now.image.now) (string_bytes names.now.disk.now) stop result.0 (outside (H.files host) (H.faults host) (S.left source.old) (S.faults source.old) (K.written sink.old) (K.faults sink.old)) (outside (H.files result.1) (H.faults result.1) (S.left source.new) (S.faults source.new) (K.written sink.new) (K.faults sink.new)) (benched (B.pages bench.new) (B.parted bench.new) (B.tells_start bench.new) (B.tells bench.new) (B.began bench.new) (B.left bench.new)) }
    ensures tells_start { B.tells_start bench.new ≡ B.tells_start bench.old }
    ensures tells { B.tells bench.new ≡ B.tells bench.old }
{
    let mut work = Serving {
        gathers: stop.is_none(),
    };
    let (end, host) = work_on_pair(alloc, names, stop, source, sink, host, bench, &mut work);
    let mut room = [0u8; ROOM_BYTES];
    (tell_end(end, names, stop, &mut room, sink), host)
}
