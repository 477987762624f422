//! A sink that fails at each of its puts in turn, over a script of three CPUs.

use crate::tests::{script_of, stopped};
use cyc_script::Script;
use cyc_text::RunFault;
use std::alloc::Global;

/// All words, with calls that are lost at the ceiling, and removals that answer later. `tools/timeline` gives this text too.
const SCRIPT: &str =
    "{\"cpus\":3,\"ceiling\":3,\"steps\":[[\"add\",\"a\",\"low\",1,2],[\"omni\",\"o\",\"lock\",5,10,2],\
     [\"softint\",0,\"low\",1],[\"softint\",0,\"lock\",1],[\"add\",\"b\",\"high\",0,7],[\"advance\",9],\
     [\"softint\",0,\"low\",2],[\"remove\",\"a\"],[\"softint\",0,\"low\",8],[\"softint\",0,\"lock\",8],[\"juggle\",1],\
     [\"bind\",\"b\",2],[\"softint\",1,\"low\",8],[\"softint\",1,\"lock\",8],[\"bind\",\"b\",2],[\"reprogram\",\"b\",30],\
     [\"reprogram\",\"o\",12,2],[\"offline\",1],[\"advance\",40],[\"softint\",2,\"lock\",1],[\"softint\",2,\"lock\",9],\
     [\"unbind\",\"b\"],[\"online\",1],[\"remove\",\"o\"],[\"softint\",0,\"lock\",9],[\"juggle\",2],[\"advance\",60]]}";

const TEXT: &str =
    "1 ok\n2 ok\n3 ran 0 idle\n4 ran 0 idle\n5 ok\n6 fired 9 lost 2\n7 ran 2 more\n8 kept 1\n9 ran 1 idle\n9 removed a 3\n\
     10 ran 1 idle\n11 moved 1 bound 0 pending 0 refused 0\n12 ok\n13 ran 0 idle\n14 ran 1 idle\n15 ok\n16 ok\n17 ok\n18 ok\n\
     19 fired 8 lost 1\n20 ran 1 more\n21 ran 2 idle\n22 ok\n23 ok\n24 kept 3\n25 ran 3 idle\n25 removed o 8\n\
     26 moved 1 bound 0 pending 0 refused 0\n27 fired 3 lost 0\na expired 5 called 3 lost 2 pending 0\n\
     o expired 9 called 8 lost 1 pending 0\nb expired 6 called 6 lost 0 pending 0\n";

/// The puts of the text: one for each step and one for each name.
const PUTS: u32 = 30;

/// How many lines these bytes end.
fn lines(bytes: &[u8]) -> u32 {
    let mut count: u32 = 0;
    for byte in bytes {
        if *byte == b'\n' {
            count = count.wrapping_add(1);
        }
    }
    count
}

/// Whether the replay stops at the put that the sink fails at, after those before it and so many bytes of it, or ends.
fn stops_right(alloc: Global, script: &Script, puts: u32, part: usize) -> bool {
    let (ended, written) = stopped(alloc, script, puts, part);
    let is_prefix = TEXT.as_bytes().starts_with(written.as_slice());
    let right = if puts < PUTS {
        ended == Err(RunFault::Write)
    } else {
        ended == Ok(()) && written.len() == TEXT.len()
    };
    right && is_prefix && lines(written.as_slice()) >= puts
}

#[test]
fn a_put_that_fails_stops_a_replay_of_three_cpus(rt: HostRuntime) {
    let script = script_of(&rt, SCRIPT);
    for puts in 0..32u32 {
        for part in [0, 1, 7, 1000usize] {
            let right = stops_right(rt.alloc(), &script, puts, part);
            assert!(rt; right, "{part} bytes after {puts} puts");
        }
    }
}
