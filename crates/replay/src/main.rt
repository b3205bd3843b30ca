// Replays a recorded night from standard input: reads a record, has it played, writes its line; then the last line.
// What a record is and what its line says is the library's.
#![tactic(auto)]

use night::{Line, Night};
use show::Out;

// The descriptor of standard input.
const STDIN: i32 = 0;

fn main() {
    let mut night = Night::start();
    let mut recorded = [0u8; night::RECORD];
    let mut line = Line::over([0; night::LINE]);
    for k in 1..=u64::MAX {
        // The input may end within a record, which `read_exact` would make an error.
        let n = io::read_full(STDIN, &mut recorded);
        let more = night.play(k, show::front(&recorded, n), &mut line);
        let _written = Out.write_all(line.text());
        if !more {
            break;
        }
    }
    night.last(&mut line);
    let _written = Out.write_all(line.text());
}
