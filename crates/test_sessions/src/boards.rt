//! Worked rows of diagrams, chains and scores, on boards from one point to the largest.
use crate::help::shared_rows::{CAPTURE, Row};
use crate::loads::{Gift, answers_over};
use crate::scripts::all_say;

/// Diagrams, chains and scores.
const BOARDS: &[Row] = &[
    CAPTURE,
    Row {
        name: "suicide of several",
        script: b"boardsize 3\nplay b A1\nplay w A2\nplay w B2\nplay w C1\nplay b B1\n\
        showboard\nundo\ngoref-chains\n",
        answers: b"=\n\n=\n\n=\n\n=\n\n=\n\n=\n\n\
        = size 3 komi 0 prisoners B 2 W 0 moves 5 next W\n \
        3 . . .\n 2 O O .\n 1 . . O\n   A B C\n\n\
        =\n\n\
        = B A1 : B1\nW C1 : B1 C2\nW A2 B2 : B1 C2 A3 B3\n\n",
    },
    Row {
        name: "score and komi",
        script: b"boardsize 9\nfinal_score\nkomi 6.5\nfinal_score\nplay b e5\nfinal_score\n\
        clear_board\nkomi -0.5\nfinal_score\nkomi 6.505\nkomi 1000000000\nfinal_score\n",
        answers: b"=\n\n= 0\n\n=\n\n= W+6.5\n\n=\n\n= B+74.5\n\n\
        =\n\n=\n\n= B+0.5\n\n? syntax error\n\n? syntax error\n\n= B+0.5\n\n",
    },
    Row {
        name: "a board without stones",
        script: b"boardsize 1\ngoref-chains\n7 goref-chains\nshowboard\n",
        answers: b"=\n\n=\n\n=7\n\n\
        = size 1 komi 0 prisoners B 0 W 0 moves 0 next B\n 1 .\n   A\n\n",
    },
    Row {
        name: "rows with two digits",
        script: b"boardsize 10\nkomi -7.5\nplay b k10\nshowboard\n",
        answers: b"=\n\n=\n\n=\n\n\
        = size 10 komi -7.5 prisoners B 0 W 0 moves 1 next W\n\
        10 . . . . . . . . . X\n 9 . . . . . . . . . .\n 8 . . . . . . . . . .\n \
        7 . . . . . . . . . .\n 6 . . . . . . . . . .\n 5 . . . . . . . . . .\n \
        4 . . . . . . . . . .\n 3 . . . . . . . . . .\n 2 . . . . . . . . . .\n \
        1 . . . . . . . . . .\n   A B C D E F G H J K\n\n",
    },
    Row {
        name: "the largest board",
        script: b"boardsize 26\nboardsize 25\nplay b z25\nplay w y25\nplay b z26\ngoref-chains\n",
        answers: b"? unacceptable size\n\n=\n\n=\n\n=\n\n? syntax error\n\n\
        = W Y25 : Y24 X25\nB Z25 : Z24\n\n",
    },
    Row {
        name: "the largest board",
        script: b"boardsize 25\nplay b n13\nfinal_score\n",
        answers: b"=\n\n=\n\n= B+625\n\n",
    },
    Row {
        name: "the largest board",
        script: b"boardsize 25\nplay b z1\ngoref-printsgf\n",
        answers: b"=\n\n=\n\n= (;GM[1]FF[4]SZ[25]KM[0]PL[B];B[yy])\n\n",
    },
];

#[test]
fn boards(rt: HostRuntime) {
    all_say(&rt, rt.alloc(), BOARDS);
}

/// Whether answers begin and end as those to a stone in the corner of the largest board.
fn is_the_largest(answers: &[u8]) -> bool {
    answers.starts_with(
        b"=\n\n=\n\n= size 25 komi 0 prisoners B 0 W 0 moves 1 next W\n\
        25 . . . . . . . . . . . . . . . . . . . . . . . . .\n24 .",
    ) && answers.ends_with(
        b"\n 1 . . . . . . . . . . . . . . . . . . . . . . . . X\n   \
        A B C D E F G H J K L M N O P Q R S T U V W X Y Z\n\n",
    )
}

#[test]
fn the_largest_diagram(rt: HostRuntime) {
    let script = b"boardsize 25\nplay b z1\nshowboard\n";
    let answers = answers_over(&rt, rt.alloc(), Gift::Missing, script).expect(&rt, "memory");
    assert!(rt; is_the_largest(answers.as_slice()));
}
