//! Worked rows of the three handicap commands: their counts, their points and their refusals. One row is of
//! the time commands.
use crate::help::shared_rows::{FREE_HANDICAP, HANDICAP, HANDICAP_AFTER_PASS, Row};
use crate::scripts::all_say;

/// Handicaps, and times.
const HANDICAPS: &[Row] = &[
    HANDICAP,
    HANDICAP_AFTER_PASS,
    Row {
        name: "handicap counts",
        script: b"boardsize 8\nfixed_handicap 5\nboardsize 6\nfixed_handicap 2\n",
        answers: b"=\n\n? invalid number of stones\n\n=\n\n? invalid number of stones\n\n",
    },
    Row {
        name: "handicap counts",
        script: b"boardsize 19\nfixed_handicap 9\nboardsize 9\nplace_free_handicap 20\n",
        answers: b"=\n\n= D4 Q16 D16 Q4 D10 Q10 K4 K16 K10\n\n\
        =\n\n= C3 G7 C7 G3 C5 G5 E3 E7 E5\n\n",
    },
    Row {
        name: "handicap counts",
        script: b"boardsize 8\nplace_free_handicap 9\nclear_board\nplace_free_handicap 1\n",
        answers: b"=\n\n= C3 F6 C6 F3\n\n=\n\n? invalid number of stones\n\n",
    },
    Row {
        name: "handicap counts",
        script: b"boardsize 13\nfixed_handicap 5\nboardsize 7\nfixed_handicap 4\n",
        answers: b"=\n\n= D4 K10 D10 K4 G7\n\n=\n\n= C3 E5 C5 E3\n\n",
    },
    Row {
        name: "handicap on the largest board",
        script: b"boardsize 25\nfixed_handicap 9\n",
        answers: b"=\n\n= D4 W22 D22 W4 D13 W13 N4 N22 N13\n\n",
    },
    Row {
        name: "the start of a handicap",
        script: b"boardsize 7\nkomi 0.5\nfixed_handicap 2\nshowboard\n",
        answers: b"=\n\n=\n\n= C3 E5\n\n\
        = size 7 komi 0.5 prisoners B 0 W 0 moves 0 next W\n \
        7 . . . . . . .\n 6 . . . . . . .\n 5 . . . . X . .\n 4 . . . . . . .\n \
        3 . . X . . . .\n 2 . . . . . . .\n 1 . . . . . . .\n   A B C D E F G\n\n",
    },
    FREE_HANDICAP,
    Row {
        name: "a free handicap leaves a point",
        script: b"boardsize 2\nset_free_handicap a1 b1 a2 b2\nset_free_handicap a1 a1 x\n\
        set_free_handicap B2 a1 A2\ngoref-chains\nundo\n",
        answers: b"=\n\n? bad vertex list\n\n? syntax error\n\n=\n\n= B A1 A2 B2 : B1\n\n? cannot undo\n\n",
    },
    Row {
        name: "an emptied board has no handicap",
        script: b"boardsize 7\nkomi 0.5\nfixed_handicap 2\nclear_board\nshowboard\ngoref-printsgf\nundo\n\
        play b c3\nplay w e5\ngoref-chains\nundo\nundo\nundo\ngoref-chains\nfixed_handicap 2\n",
        answers: b"=\n\n=\n\n= C3 E5\n\n=\n\n\
        = size 7 komi 0.5 prisoners B 0 W 0 moves 0 next B\n \
        7 . . . . . . .\n 6 . . . . . . .\n 5 . . . . . . .\n 4 . . . . . . .\n \
        3 . . . . . . .\n 2 . . . . . . .\n 1 . . . . . . .\n   A B C D E F G\n\n\
        = (;GM[1]FF[4]SZ[7]KM[0.5]PL[B])\n\n? cannot undo\n\n\
        =\n\n=\n\n= B C3 : C2 B3 D3 C4\nW E5 : E4 D5 F5 E6\n\n\
        =\n\n=\n\n? cannot undo\n\n=\n\n= C3 E5\n\n",
    },
    Row {
        name: "an emptied board has no handicap",
        script: b"boardsize 2\nset_free_handicap a1 b2\nboardsize 2\ngoref-printsgf\nundo\ngoref-legal w\n",
        answers: b"=\n\n=\n\n=\n\n= (;GM[1]FF[4]SZ[2]KM[0]PL[B])\n\n? cannot undo\n\n= A1 B1 A2 B2\n\n",
    },
    Row {
        name: "refusals in order",
        script: b"play b a1\nfixed_handicap 99\nfixed_handicap x\nset_free_handicap\nset_free_handicap a2\n\
        place_free_handicap 1\nplace_free_handicap\n",
        answers: b"=\n\n? board not empty\n\n? syntax error\n\n? syntax error\n\n? board not empty\n\n\
        ? board not empty\n\n? syntax error\n\n",
    },
    Row {
        name: "times",
        script: b"time_settings 1 2\ntime_settings 0 5 1\ntime_left b 1 2\ntime_left x 1 2\ntime_left w 1\n",
        answers: b"? syntax error\n\n=\n\n=\n\n? syntax error\n\n? syntax error\n\n",
    },
];

#[test]
fn handicaps(rt: HostRuntime) {
    all_say(&rt, rt.alloc(), HANDICAPS);
}
