use crate::goref_next_game;

/// Sources, the place from which on a game is searched, the status, and the two places.
const GAMES: &[(&[u8], usize, u8, usize, usize)] = &[
    (b"x(;B[aa]) y (;)", 0, 0, 1, 9),
    (b"x(;B[aa]) y (;)", 9, 0, 12, 15),
    (b"x(;B[aa]) y (;)", 15, 1, 15, 15),
    (b"x(;B[aa]) y (;)", 99, 1, 15, 15),
    (b"", 0, 1, 0, 0),
    (b"(;)(;B[aa]7)", 3, 2, 3, 10),
    (b"(;)x(;B[aa]", 3, 2, 4, 11),
];

#[test]
fn games_are_found(rt: HostRuntime) {
    for (number, (source, from, status, first, last)) in GAMES.iter().enumerate() {
        let mut begin = 7;
        let mut end = 7;
        let found = goref_next_game(source, *from, &mut begin, &mut end);
        assert!(rt; found == *status, "row {number}");
        assert!(rt; (begin, end) == (*first, *last), "row {number}");
    }
}
