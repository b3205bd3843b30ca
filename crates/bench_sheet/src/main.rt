// Runs every line of the bench sheet on the real call, marked or not, and names what each gave: the refusal or the
// words sent, the whole memory, and the record.
#![tactic(auto)]

mod bench;
mod sheet;

fn main() {
    let _printed = sheet::all(&show::Out);
}
