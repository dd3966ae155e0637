// What `yard --help` says.
use telling::trouble::Trouble;

const USAGE: &str =
    "usage: yard [--search overlapping|plain|longest|first] [--numbers] [--help] [LIST SHEET]\nLooks for the codes of LIST in SHEET. Without names: crew/codes.txt and crew/sheet.txt.\n\n  --search overlapping  every occurrence of every code (the default: no hazard is hidden by another match)\n  --search plain        the occurrence that ends first, the longest of them, then on from its end\n  --search longest      the occurrence that starts first, the longest of them, then on from its end\n  --search first        the occurrence that starts first, the code listed first, then on from its end\n  --numbers             a match a line, START END VALUE (places in bytes from 0), and then \"moves N\" (0 for longest and first)\n  --help, -h            this text\n  --                    ends the options\n\n";

const FORMATS: &str =
    "LIST has a code a line: CODE, VALUE<TAB>CODE, !VALUE<TAB>CODE or !<TAB>CODE. The ! marks a hazard. VALUE is a number up to 4294967295; a line\nwithout one has its own number, counted from 0. A line ends with LF or CR LF. A match is a hazard if its bytes are those of a marked code.\n\nOutput: a heading; each hazard, \"!!! HAZARD line L, column C: CODE (value V)\"; each other match, \"line L, column C: CODE (value V)\"; and a last\nline that says how many hazards there are, or none. Lines and columns count from 1, columns in bytes. Control bytes are shown as \\xHH.\nA complete result always ends with its last line (\"moves N\", or the line about hazards). The exit status says nothing.\n\n";

const REFUSALS: &str =
    "Bad input gets one line on standard error and nothing on standard output. The refusals by their numbers:\n   3  the list has more than 1024 lines\n   4  a code is empty\n   5  a code is longer than 64 bytes\n   7  the list needs more than 65536 cells\n  10  the sheet is longer than 65536 bytes\n";

pub(crate) fn print_help(rt: &HostRuntime) -> Result<(), Trouble<'static>> {
    let out = rt.stdout();
    for part in [USAGE, FORMATS, REFUSALS] {
        out.write_all(part.as_bytes())
            .map_err(|why| Trouble::Unwritten(why))?;
    }
    Ok(())
}
