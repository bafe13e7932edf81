//! Worked rows of `goref-superko`: where the two rules differ, when the rule can't be changed, and what keeps
//! it.
use crate::help::shared_rows::Row;
use crate::scripts::all_say;

/// The rules of superko.
const SUPERKO: &[Row] = &[
    Row {
        name: "a suicide passes the turn",
        script: b"boardsize 2\ngoref-superko situational\nplay b A1\nplay w B1\nplay w A2\nplay b a1\nplay b a1\n\
        goref-superko positional\nundo\nplay b a1\nshowboard\ngoref-printsgf\n",
        answers: b"=\n\n=\n\n=\n\n=\n\n=\n\n=\n\n? illegal move\n\n\
        ? game in progress\n\n=\n\n=\n\n\
        = size 2 komi 0 prisoners B 2 W 0 moves 4 next W\n 2 O .\n 1 . O\n   A B\n\n\
        = (;GM[1]FF[4]SZ[2]KM[0]PL[B];B[ab];W[bb];W[aa];B[ab])\n\n",
    },
    Row {
        name: "a pass leaves a situation",
        script: b"boardsize 2\ngoref-superko situational\nplay b A1\nplay w B1\nplay w A2\n\
        play b pass\nplay w pass\nplay b pass\nundo\nplay b a1\n",
        answers: b"=\n\n=\n\n=\n\n=\n\n=\n\n=\n\n=\n\n=\n\n=\n\n? illegal move\n\n",
    },
    Row {
        name: "one point",
        script: b"boardsize 1\ngoref-superko situational\ngoref-legal b\ngoref-legal w\ngenmove b\n\
        undo\nplay b a1\nplay w a1\n",
        answers: b"=\n\n=\n\n= A1\n\n=\n\n= pass\n\n=\n\n=\n\n? illegal move\n\n",
    },
    Row {
        name: "one point",
        script: b"boardsize 1\ngoref-superko positional\ngoref-legal b\ngoref-legal w\nplay b a1\n",
        answers: b"=\n\n=\n\n=\n\n=\n\n? illegal move\n\n",
    },
    Row {
        name: "words that name no rule",
        script: b"goref-superko\ngoref-superko Situational\n5 goref-superko POSITIONAL\n",
        answers: b"? syntax error\n\n? syntax error\n\n?5 syntax error\n\n",
    },
    Row {
        name: "words that name no rule",
        script: b"goref-superko situationa\ngoref-superko positionally\ngoref-superko x situational\n",
        answers: b"? syntax error\n\n? syntax error\n\n? syntax error\n\n",
    },
    Row {
        name: "words that name no rule",
        script: b"play b a1\ngoref-superko\ngoref-superko Positional\n6 goref-superko positional\n",
        answers: b"=\n\n? syntax error\n\n? syntax error\n\n?6 game in progress\n\n",
    },
    Row {
        name: "ko after passes",
        script: b"boardsize 4\ngoref-superko situational\n\
        play b B3\nplay b A2\nplay b B1\nplay w C3\nplay w C1\nplay w D2\nplay w B2\n\
        play b C2\nplay w pass\nplay b pass\nplay w b2\n",
        answers: b"=\n\n=\n\n=\n\n=\n\n=\n\n=\n\n=\n\n=\n\n=\n\n=\n\n=\n\n=\n\n? illegal move\n\n",
    },
    Row {
        name: "an empty board keeps the rule",
        script: b"goref-superko situational\nboardsize 1\ngoref-legal b\nboardsize 0\ngoref-legal b\n",
        answers: b"=\n\n=\n\n= A1\n\n? unacceptable size\n\n= A1\n\n",
    },
    Row {
        name: "an empty board keeps the rule",
        script: b"boardsize 1\ngoref-superko situational\nplay b a1\nclear_board\ngoref-legal b\n",
        answers: b"=\n\n=\n\n=\n\n=\n\n= A1\n\n",
    },
    Row {
        name: "an empty board keeps the rule",
        script: b"boardsize 1\ngoref-superko situational\ngoref-superko positional\nclear_board\ngoref-legal b\n",
        answers: b"=\n\n=\n\n=\n\n=\n\n=\n\n",
    },
    Row {
        name: "undo keeps the rule",
        script: b"boardsize 1\ngoref-superko situational\nplay b a1\nundo\ngoref-legal b\n\
        goref-superko positional\ngoref-legal b\n",
        answers: b"=\n\n=\n\n=\n\n=\n\n= A1\n\n=\n\n=\n\n",
    },
    // White on A1 takes its own stone, which leaves the earlier position with Black to move.
    Row {
        name: "placed handicaps keep the rule",
        script: b"boardsize 7\ngoref-superko situational\nfixed_handicap 2\nplay b A2\nplay b B1\nplay w A1\nplay w A1\n",
        answers: b"=\n\n=\n\n= C3 E5\n\n=\n\n=\n\n=\n\n? illegal move\n\n",
    },
    Row {
        name: "placed handicaps keep the rule",
        script: b"boardsize 7\ngoref-superko situational\nplace_free_handicap 2\nplay b A2\nplay b B1\nplay w A1\nplay w A1\n",
        answers: b"=\n\n=\n\n= C3 E5\n\n=\n\n=\n\n=\n\n? illegal move\n\n",
    },
    Row {
        name: "placed handicaps keep the rule",
        script: b"boardsize 7\nfixed_handicap 2\nplay b A2\nplay b B1\nplay w A1\n",
        answers: b"=\n\n= C3 E5\n\n=\n\n=\n\n? illegal move\n\n",
    },
    Row {
        name: "set handicaps keep the rule",
        script: b"boardsize 2\ngoref-superko situational\nset_free_handicap B1 A2\ngoref-legal w\n",
        answers: b"=\n\n=\n\n=\n\n= A1 B2\n\n",
    },
    Row {
        name: "set handicaps keep the rule",
        script: b"boardsize 2\nset_free_handicap B1 A2\ngoref-legal w\n",
        answers: b"=\n\n=\n\n=\n\n",
    },
    Row {
        name: "the rule over handicap stones",
        script: b"boardsize 2\nset_free_handicap B1 A2\ngoref-superko situational\ngoref-legal w\ngoref-chains\n\
        goref-superko positional\ngoref-legal w\n",
        answers: b"=\n\n=\n\n=\n\n= A1 B2\n\n= B B1 : A1 B2\nB A2 : A1 B2\n\n=\n\n=\n\n",
    },
    Row {
        name: "the rule over handicap stones",
        script: b"boardsize 7\nfixed_handicap 2\ngoref-superko situational\nplay b A2\nplay b B1\nplay w A1\n",
        answers: b"=\n\n= C3 E5\n\n=\n\n=\n\n=\n\n=\n\n",
    },
    Row {
        name: "refusals keep the rule",
        script: b"boardsize 1\ngoref-superko\ngoref-superko Situational\ngoref-legal b\n\
        goref-superko situational\ngoref-superko\ngoref-superko Positional\ngoref-legal b\n",
        answers: b"=\n\n? syntax error\n\n? syntax error\n\n=\n\n\
        =\n\n? syntax error\n\n? syntax error\n\n= A1\n\n",
    },
    Row {
        name: "refusals keep the rule",
        script: b"boardsize 1\ngoref-superko situational\nplay b a1\ngoref-superko positional\n\
        goref-superko situational\nundo\ngoref-legal b\n",
        answers: b"=\n\n=\n\n=\n\n? game in progress\n\n? game in progress\n\n=\n\n= A1\n\n",
    },
    Row {
        name: "refusals keep the rule",
        script: b"boardsize 1\nplay b pass\ngoref-superko situational\nundo\ngoref-legal b\n",
        answers: b"=\n\n=\n\n? game in progress\n\n=\n\n=\n\n",
    },
    Row {
        name: "refusals keep the board",
        script: b"boardsize 2\nplay b a1\ngoref-superko situational\ngoref-superko\nshowboard\ngoref-chains\n\
        play w b1\nplay w a2\nplay b a1\n",
        answers: b"=\n\n=\n\n? game in progress\n\n? syntax error\n\n\
        = size 2 komi 0 prisoners B 0 W 0 moves 1 next W\n 2 . .\n 1 X .\n   A B\n\n\
        = B A1 : B1 A2\n\n\
        =\n\n=\n\n? illegal move\n\n",
    },
    Row {
        name: "refusals keep the board",
        script: b"boardsize 2\nset_free_handicap B1 A2\ngoref-superko x\ngoref-chains\ngoref-legal w\n",
        answers: b"=\n\n=\n\n? syntax error\n\n= B B1 : A1 B2\nB A2 : A1 B2\n\n=\n\n",
    },
];

#[test]
fn superko_rules(rt: HostRuntime) {
    all_say(&rt, rt.alloc(), SUPERKO);
}
