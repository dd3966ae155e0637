// Document 01's case P3 from the pattern list to the matches: builds bcd, ab and a, and prints what overlapping search says on "abcd", a match
// in a line, and then the moves.
#![tactic(auto)]

use build::build;
use list::List;
use search::{Answer, Search};
use std::io;
use table::{Depth, Tables};

// More calls than the text has matches: at each of its bytes at most 3 patterns end, and the end is said once.
const CALLS: u32 = 13;

// What a search says up to its end.
fn print_all(rt: &impl Print, tables: &Tables<'_>, text: &[u8]) -> io::Result<()> {
    let mut search = Search::fresh();
    for _ in 0..CALLS {
        match search.next_overlapping(tables, text) {
            Answer::Match(found, next) => {
                println!(rt; "{} {} {}", found.start, found.end, found.value)?;
                search = next;
            }
            Answer::End(last) => return println!(rt; "moves {}", last.moves),
            Answer::Refused(_, _) => return println!(rt; "refused"),
        }
    }
    Ok(())
}

fn main(rt: HostRuntime) -> io::Result<()> {
    let mut trie = [[0u32; 5]; 8];
    let mut owns = [[0u32; 2]; 4];
    let mut notes = [[0u32; 6]; 8];
    let mut spots = [[0u32; 2]; 256];
    let mut base = [0u32; 256];
    let mut link = [0u32; 256];
    let mut output = [0u32; 256];
    let mut check = [0u8; 256];
    let mut depth = [0 as Depth; 256];
    let mut outs = [[0u32; 3]; 4];
    let list = List {
        kind: 0,
        bytes: b"bcdaba",
        ends: &[3, 5, 6],
        values: &[0, 1, 2],
    };
    let built = build(
        list,
        &mut trie,
        &mut owns,
        &mut notes,
        &mut spots,
        &mut base,
        &mut link,
        &mut output,
        &mut check,
        &mut depth,
        &mut outs,
    );
    let Ok(counts) = built else {
        return println!(rt; "refused");
    };
    let tables = Tables {
        base: &base,
        link: &link,
        output: &output,
        check: &check,
        depth: &depth,
        outs: &outs,
        counts,
    };
    print_all(&rt, &tables, b"abcd")
}
