//! Worked rows of plays, of legal plays and of choices.
use crate::help::shared_rows::{CHOICE_ON_TINY_BOARDS, CHOICE_ON_TWO_LINES, REPETITION, Row};
use crate::scripts::all_say;

const PLAYS: &[Row] = &[
    CHOICE_ON_TINY_BOARDS,
    CHOICE_ON_TWO_LINES,
    Row {
        name: "legal plays on two lines",
        script: b"boardsize 2\ngoref-legal w\n",
        answers: b"=\n\n= A1 B1 A2 B2\n\n",
    },
    REPETITION,
    Row {
        name: "colours of choices",
        script: b"genmove\ngenmove x\nreg_genmove\nreg_genmove greenish\ngoref-legal\n1 goref-legal 1\n",
        answers: b"? syntax error\n\n? syntax error\n\n? syntax error\n\n? syntax error\n\n? syntax error\n\n?1 syntax error\n\n",
    },
];

#[test]
fn plays(rt: HostRuntime) {
    all_say(&rt, rt.alloc(), PLAYS);
}
