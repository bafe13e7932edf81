//! Worked rows of the protocol: lines, and what they are answered where there is memory.

/// A name for failure messages, lines, and their answers.
#[derive(Clone, Copy)]
pub(crate) struct Row {
    pub(crate) name: &'static str,
    pub(crate) script: &'static [u8],
    pub(crate) answers: &'static [u8],
}

pub(crate) const REPETITION: Row = Row {
    name: "a repetition is refused",
    script: b"boardsize 2\nplay b A1\nplay w B1\nplay w A2\nplay b a1\ngoref-legal b\ngoref-legal w\n",
    answers: b"=\n\n=\n\n=\n\n=\n\n? illegal move\n\n=\n\n= A1 B2\n\n",
};

pub(crate) const KO: Row = Row {
    name: "a ko",
    script: b"boardsize 4\nplay b b3\nplay b a2\nplay b b1\nplay w c3\nplay w c1\nplay w d2\n\
        play w b2\nplay b c2\nplay w b2\nundo\nplay b c2\n",
    answers: b"=\n\n=\n\n=\n\n=\n\n=\n\n=\n\n=\n\n=\n\n=\n\n? illegal move\n\n=\n\n=\n\n",
};

pub(crate) const KO_AFTER_PASSES: Row = Row {
    name: "a ko after passes",
    script: b"boardsize 4\nplay b B3\nplay b A2\nplay b B1\nplay w C3\nplay w C1\nplay w D2\n\
        play w B2\nplay b C2\nplay w pass\nplay b pass\nplay w b2\n",
    answers: b"=\n\n=\n\n=\n\n=\n\n=\n\n=\n\n=\n\n=\n\n=\n\n=\n\n=\n\n? illegal move\n\n",
};

pub(crate) const HANDICAP: Row = Row {
    name: "a handicap is no move",
    script: b"boardsize 9\nfixed_handicap 2\nundo\nfixed_handicap 2\n",
    answers: b"=\n\n= C3 G7\n\n? cannot undo\n\n? board not empty\n\n",
};

pub(crate) const HANDICAP_AFTER_PASS: Row = Row {
    name: "no handicap after a pass",
    script: b"clear_board\nplay b pass\nfixed_handicap 2\n",
    answers: b"=\n\n=\n\n? board not empty\n\n",
};

pub(crate) const CHOICE_ON_TINY_BOARDS: Row = Row {
    name: "choices on tiny boards",
    script: b"boardsize 1\ngenmove b\ngoref-legal b\nboardsize 3\nreg_genmove b\ngenmove b\n\
        genmove w\nfinal_score\n",
    answers: b"=\n\n= pass\n\n=\n\n=\n\n= B2\n\n= B2\n\n= A1\n\n= 0\n\n",
};

pub(crate) const CHOICE_ON_TWO_LINES: Row = Row {
    name: "choices on two lines",
    script: b"boardsize 2\ngenmove b\ngenmove w\ngenmove b\ngenmove w\ngenmove b\nundo\nundo\nundo\n\
        undo\nundo\nundo\n",
    answers: b"=\n\n= A1\n\n= B2\n\n= B1\n\n= A2\n\n= A1\n\n=\n\n=\n\n=\n\n=\n\n=\n\n? cannot undo\n\n",
};

pub(crate) const FREE_HANDICAP: Row = Row {
    name: "a free handicap",
    script: b"boardsize 9\nset_free_handicap a1 a1\nset_free_handicap a1\nset_free_handicap a1 pass\n\
        set_free_handicap a1 t19\nset_free_handicap a1 5b\nset_free_handicap a1 b2\nshowboard\n",
    answers: b"=\n\n? bad vertex list\n\n? bad vertex list\n\n? bad vertex list\n\n? bad vertex list\n\
        \n? syntax error\n\n=\n\n= size 9 komi 0 prisoners B 0 W 0 moves 0 next W\n \
        9 . . . . . . . . .\n 8 . . . . . . . . .\n 7 . . . . . . . . .\n 6 . . . . . . . . .\n \
        5 . . . . . . . . .\n 4 . . . . . . . . .\n 3 . . . . . . . . .\n 2 . X . . . . . . .\n \
        1 X . . . . . . . .\n   A B C D E F G H J\n\n",
};

pub(crate) const CAPTURE: Row = Row {
    name: "a capture on two lines",
    script: b"boardsize 2\nplay b A1\nplay w B1\nplay w A2\ngoref-chains\nshowboard\nplay b a1\n",
    answers: b"=\n\n=\n\n=\n\n=\n\n= W B1 : A1 B2\nW A2 : A1 B2\n\n\
        = size 2 komi 0 prisoners B 1 W 0 moves 3 next B\n 2 O .\n 1 . O\n   A B\n\n\
        ? illegal move\n\n",
};

/// `f` is a record of two handicap stones, a play and a pass.
pub(crate) const LOAD: Row = Row {
    name: "a record is loaded",
    script: b"loadsgf f 2\nshowboard\nundo\nundo\n",
    answers: b"=\n\n= size 9 komi 5.5 prisoners B 0 W 0 moves 1 next B\n 9 . . . . . . . . .\n \
        8 . . . . . . . . .\n 7 . . X . . . . . .\n 6 . . . . . . . . .\n 5 . . . . O . . . .\n \
        4 . . . . . . . . .\n 3 . . . . . . X . .\n 2 . . . . . . . . .\n 1 . . . . . . . . .\n   \
        A B C D E F G H J\n\n=\n\n? cannot undo\n\n",
};

pub(crate) const PRINTED: Row = Row {
    name: "the record is printed",
    script: b"boardsize 9\nkomi 6.5\nfixed_handicap 2\nplay w e5\nplay b pass\ngoref-printsgf\n",
    answers: b"=\n\n=\n\n= C3 G7\n\n=\n\n=\n\n= (;GM[1]FF[4]SZ[9]KM[6.5]PL[W]AB[cg][gc];W[ee];B[])\n\n",
};
