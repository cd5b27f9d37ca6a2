//! The word `gen` with a number of steps, each as a whole run.
use crate::documents::{PIECE, check_run};

/// The most steps come to the same each time.
const SUMMARIES: [(&str, &str); 4] = [
    (
        "gen 1",
        "{\"commands\":47,\"ok\":true,\"released\":1,\"sum\":0}\n",
    ),
    (
        "gen 2",
        "{\"commands\":52,\"ok\":true,\"released\":1,\"sum\":2}\n",
    ),
    (
        "gen 50000",
        "{\"commands\":250042,\"ok\":true,\"released\":16710,\"sum\":799620}\n",
    ),
    (
        "gen 50000",
        "{\"commands\":250042,\"ok\":true,\"released\":16710,\"sum\":799620}\n",
    ),
];

/// A byte in the source isn't read.
#[test]
fn generated_scripts_are_summed_up(rt: HostRuntime) {
    for (words, want) in SUMMARIES {
        check_run(&rt, (words, words), b"{", (0, PIECE, 0), (0, want));
    }
}
