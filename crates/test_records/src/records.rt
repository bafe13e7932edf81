//! Rows of records beside what is wanted of each: one subject, as long as its tables are.
ghost use Rattle.std.specs.Prelude.{◌≡◌};

use go_board::{Point, Size, Vertex, WriteFault, read_vertex};
use go_sgf::{
    Collection, Node, Property, Rectangle, Row, SgfError, Tree, check, cook_simple, cook_text,
    escape, hundredths_of, number_of, point_of, points_in, points_of, read, tidy, write,
};
use std::alloc::{AllocError, Allocator, Global};
use std::process::Abort;
use std::test::Fail;
use test_allocator::Refusing;
use test_devices::Writer;

const SAMPLE: &[u8] = b"x(;GM[1] FF[4] ;B[aa](;W[bb])(;W[cc]C[a\\]b]))";

fn nine(rt: &impl Abort) -> Size
    ensures { result ≡ 9 }
{
    Size::new(9).expect(rt, "a size")
}

/// Whether a source is refused with this.
fn is_refused(alloc: Global, source: &[u8], why: SgfError) -> bool {
    read(alloc, source).err() == Some(why) && check(source).err() == Some(why)
}

/// Writes the text of a record.
fn written(
    collection: &Collection<'_, Global>,
    writer: &mut Writer<Global>,
) -> Result<(), WriteFault> {
    write(collection, writer)
}

/// Whether the trees of a record are written as this text, by at most `most` bytes a write.
fn writes(alloc: Global, collection: &Collection<'_, Global>, most: usize, text: &[u8]) -> bool {
    let mut writer = Writer::new(alloc).in_pieces_of(most);
    written(collection, &mut writer) == Ok(()) && writer.bytes() == text
}

/// Whether the bytes of a source are written as this text, by at most `most` bytes a write.
fn tidies(alloc: Global, source: &[u8], most: usize, text: &[u8]) -> bool {
    let Ok(checked) = check(source) else {
        return false;
    };
    let mut writer = Writer::new(alloc).in_pieces_of(most);
    checked.text() == source && tidy(&checked, &mut writer) == Ok(()) && writer.bytes() == text
}

/// Whether a source is written as this text, from its trees and from its bytes alone, however the
/// writer cuts it.
pub(crate) fn is_tidied(alloc: Global, source: &[u8], text: &[u8]) -> bool {
    let Ok(collection) = read(alloc, source) else {
        return false;
    };
    for most in [1, 3, 4_096] {
        if !writes(alloc, &collection, most, text) || !tidies(alloc, source, most, text) {
            return false;
        }
    }
    true
}

/// Copies of a piece, and a suffix.
pub(crate) fn copies(
    alloc: Global,
    piece: &[u8],
    count: u32,
    suffix: &[u8],
) -> Result<Vec<u8>, AllocError> {
    let mut text = Vec::new(alloc);
    for _ in 0..count {
        text.extend_from_slice(piece)?;
    }
    text.extend_from_slice(suffix)?;
    Ok(text)
}

/// Sources that are refused, and why.
const FAULTS: &[(&[u8], SgfError)] = &[
    (b"()", SgfError::NoTree),
    (b"(;B[aa]7)", SgfError::Unexpected(7)),
    (b"(;ab[cc])", SgfError::Unexpected(4)),
    (b"(;B)", SgfError::Unexpected(3)),
    (b"(;A B[x])", SgfError::Unexpected(4)),
    (b"(;a [x])", SgfError::Unexpected(3)),
    (b"(;B[aa]())", SgfError::Unexpected(8)),
    (b"(;B[aa](;W[bb]);W[cc])", SgfError::Unexpected(15)),
    (b"(;C[a\\", SgfError::EndInside(6)),
];

#[test]
fn fault_places(rt: HostRuntime) {
    for (number, (source, why)) in FAULTS.iter().enumerate() {
        assert!(rt; is_refused(rt.alloc(), source, *why), "row {number}");
    }
}

#[test]
fn prefixes_of_a_record(rt: HostRuntime) {
    assert_eq!(rt; SAMPLE.len(), 45);
    for (length, _) in SAMPLE.iter().enumerate() {
        let why = if length < 3 {
            SgfError::NoTree
        } else {
            SgfError::EndInside(length)
        };
        let prefix = SAMPLE.split_at(length).0;
        assert!(rt; is_refused(rt.alloc(), prefix, why), "{length} bytes");
    }
}

/// How many trees begin one in another, what follows, and why the whole is refused.
const DEPTHS: &[(u32, &[u8], SgfError)] = &[
    (1_001, b"", SgfError::TooDeep(2_000)),
    (1_000, b"", SgfError::EndInside(2_000)),
    (1_000, b"(x", SgfError::TooDeep(2_000)),
];

#[test]
fn too_deep_records(rt: HostRuntime) -> Result<(), Fail> {
    for (number, (depth, suffix, why)) in DEPTHS.iter().enumerate() {
        let source = copies(rt.alloc(), b"(;", *depth, suffix)?;
        assert!(rt;
            is_refused(rt.alloc(), source.as_slice(), *why),
            "row {number}"
        );
    }
    Ok(())
}

/// A thousand trees one in another, and a suffix.
fn thousand_trees(alloc: Global, suffix: &[u8]) -> Result<Vec<u8>, AllocError> {
    let closing = copies(alloc, b")", 1_000, suffix)?;
    copies(alloc, b"(;", 1_000, closing.as_slice())
}

#[test]
fn the_deepest_record(rt: HostRuntime) -> Result<(), Fail> {
    let whole = thousand_trees(rt.alloc(), b"")?;
    let text = thousand_trees(rt.alloc(), b"\n")?;
    assert!(rt; is_tidied(rt.alloc(), whole.as_slice(), text.as_slice()));
    Ok(())
}

#[test]
fn long_records(rt: HostRuntime) -> Result<(), Fail> {
    let blank = vec![in rt.alloc(); b' '; 16_777_217]?;
    let longest = blank.as_slice().split_at(16_777_216).0;
    assert!(rt; is_refused(rt.alloc(), blank.as_slice(), SgfError::TooLong));
    assert!(rt; is_refused(rt.alloc(), longest, SgfError::NoTree));
    Ok(())
}

/// How many values the first property of a record has.
fn first_values(collection: &Collection<'_, Global>) -> Option<usize> {
    let tree = collection.trees().first()?;
    let node = tree.nodes().first()?;
    let property = node.properties().first()?;
    Some(property.values().len())
}

#[test]
fn many_values(rt: HostRuntime) -> Result<(), Fail> {
    let values = copies(rt.alloc(), b"[]", 1_000_000, b")")?;
    let many = copies(rt.alloc(), b"(;A", 1, values.as_slice())?;
    let collection = read(rt.alloc(), many.as_slice()).expect(&rt, "a record");
    assert!(rt; first_values(&collection) == Some(1_000_000));
    Ok(())
}

const TIDY: &[u8] = b"(;GM[1]FF[4];B[aa](;W[bb])(;W[cc]C[a\\]b]))\n";

/// Records, and what they are written as.
const TIDIED: &[(&[u8], &[u8])] = &[
    (SAMPLE, TIDY),
    (b"(;B[aa])x(;W[bb])", b"(;B[aa])\n"),
    (b"(;B[aa])()", b"(;B[aa])\n"),
    (b"(;CoPyright [x] [y])(;)", b"(;CP[x][y])\n(;)\n"),
    (
        b"(;B[aa]\n;W[bb] C[x\\]y]Kb[1][2] [3];;AB[aa]\t[bb]W[cc](;B[dd]) (;W[ee]))",
        b"(;B[aa];W[bb]C[x\\]y]K[1][2][3];;AB[aa][bb]W[cc](;B[dd])(;W[ee]))\n",
    ),
];

#[test]
fn tidy_a_record(rt: HostRuntime) {
    for (number, (source, text)) in TIDIED.iter().enumerate() {
        assert!(rt; is_tidied(rt.alloc(), source, text), "row {number}");
    }
}

/// Whether the trees of a record break off at a writer that takes only a prefix of this text.
fn breaks_off(
    collection: &Collection<'_, Global>,
    mut writer: Writer<Global>,
    text: &[u8],
) -> bool {
    written(collection, &mut writer) == Err(WriteFault)
        && writer.bytes() != text
        && text.starts_with(writer.bytes())
}

/// How many writes a record takes.
fn writes_of(rt: &impl Abort, alloc: Global, collection: &Collection<'_, Global>) -> u64 {
    let mut whole = Writer::new(alloc);
    assert!(rt; written(collection, &mut whole) == Ok(()));
    whole.put_count()
}

/// Asserts that each write of a record which fails or takes nothing breaks it off.
fn each_breaks_off(rt: &impl Abort, alloc: Global, collection: &Collection<'_, Global>) {
    for put in 1..=writes_of(rt, alloc, collection) {
        let failing = Writer::new(alloc).failing_at_put(put);
        assert!(rt; breaks_off(collection, failing, TIDY), "put {put}");
        let stalling = Writer::new(alloc).stalling_at_put(put);
        assert!(rt; breaks_off(collection, stalling, TIDY), "put {put}");
    }
}

#[test]
fn a_record_that_breaks_off(rt: HostRuntime) {
    let collection = read(rt.alloc(), SAMPLE).expect(&rt, "a record");
    each_breaks_off(&rt, rt.alloc(), &collection);
}

/// A name as it is spelled, the name without its lower-case letters, and values.
type Named = (&'static [u8], &'static [u8], &'static [&'static [u8]]);

/// Whether a property is this.
fn is_named(property: &Property<'_, Global>, named: Named) -> bool {
    let (name, plain, values) = named;
    property.name() == name && property.is(plain) && property.values() == values
}

/// Whether this is the first property of a node.
fn begins(node: &Node<'_, Global>, named: Named) -> bool {
    match node.properties().first() {
        Some(property) => is_named(property, named),
        None => false,
    }
}

const PARTS: &[u8] = b"(;GaMe[1]SZ[9]Ab[cc][dd];B[aa][bb];KOMI[6.5](;W[])(;W[cc]))(;)";

/// How many nodes, children and properties of its first node each tree has.
const SHAPES: &[(usize, usize, usize)] = &[(3, 2, 3), (1, 0, 0)];

/// How many nodes, children and properties of its first node a tree has.
fn shape(rt: &impl Abort, tree: &Tree<'_, Global>) -> (usize, usize, usize) {
    let node = tree.nodes().first().expect(rt, "a node");
    let properties = node.properties().len();
    (tree.nodes().len(), tree.children().len(), properties)
}

/// Asserts the shapes of trees.
fn have_shapes(rt: &impl Abort, trees: &[Tree<'_, Global>]) {
    assert_eq!(rt; trees.len(), SHAPES.len());
    for (number, (tree, expected)) in trees.iter().zip(SHAPES).enumerate() {
        assert!(rt; shape(rt, tree) == *expected, "tree {number}");
    }
}

#[test]
fn trees_of_a_record(rt: HostRuntime) {
    let collection = read(rt.alloc(), PARTS).expect(&rt, "a record");
    have_shapes(&rt, collection.trees());
}

/// The properties of the first node.
const ROOT: &[Named] = &[
    (b"GaMe", b"GM", &[b"1"]),
    (b"SZ", b"SZ", &[b"9"]),
    (b"Ab", b"A", &[b"cc", b"dd"]),
];

/// Names that the first property hasn't.
const OTHERS: &[&[u8]] = &[b"GaMe", b"G", b"GMM"];

/// Asserts the properties of the first node, and by which names the first of them doesn't go.
fn has_root(rt: &impl Abort, properties: &[Property<'_, Global>]) {
    assert_eq!(rt; properties.len(), ROOT.len());
    for (number, (property, named)) in properties.iter().zip(ROOT).enumerate() {
        assert!(rt; is_named(property, *named), "property {number}");
    }
    let game = properties.first().expect(rt, "a property");
    for (number, name) in OTHERS.iter().enumerate() {
        assert!(rt; !game.is(name), "name {number}");
    }
}

/// Asserts the properties of the first node of a tree.
fn roots(rt: &impl Abort, trees: &[Tree<'_, Global>]) {
    let tree = trees.first().expect(rt, "a tree");
    let node = tree.nodes().first().expect(rt, "a node");
    has_root(rt, node.properties());
}

#[test]
fn properties_of_a_node(rt: HostRuntime) {
    let collection = read(rt.alloc(), PARTS).expect(&rt, "a record");
    roots(&rt, collection.trees());
}

/// The first property of each node of a tree, and of each node of its children.
const NODES: &[Named] = &[(b"B", b"B", &[b"aa", b"bb"]), (b"KOMI", b"KOMI", &[b"6.5"])];

const CHILDREN: &[&[Named]] = &[&[(b"W", b"W", &[b""])], &[(b"W", b"W", &[b"cc"])]];

/// Asserts the first property of each node.
fn begin(rt: &impl Abort, nodes: &[Node<'_, Global>], first: &[Named]) {
    assert_eq!(rt; nodes.len(), first.len());
    for (number, (node, named)) in nodes.iter().zip(first).enumerate() {
        assert!(rt; begins(node, *named), "node {number}");
    }
}

/// Asserts the first property of each node of a tree and of its children.
fn tree_begins(rt: &impl Abort, trees: &[Tree<'_, Global>]) {
    let tree = trees.first().expect(rt, "a tree");
    begin(rt, tree.nodes(), NODES);
    assert_eq!(rt; tree.children().len(), CHILDREN.len());
    for (child, first) in tree.children().iter().zip(CHILDREN) {
        begin(rt, child.nodes(), first);
    }
}

#[test]
fn values_of_a_record(rt: HostRuntime) {
    let source = b"(;B[aa][bb];KOMI[6.5](;W[])(;W[cc]))";
    let collection = read(rt.alloc(), source).expect(&rt, "a record");
    tree_begins(&rt, collection.trees());
}

/// What is made of a value or a text.
#[derive(Clone, Copy)]
enum Maker {
    Text,
    Simple,
    Escape,
}

impl Maker {
    /// Whether it makes this of these bytes.
    fn makes(self, rt: &impl Abort, alloc: Global, bytes: &[u8], text: &[u8]) -> bool {
        let made = match self {
            Maker::Text => cook_text(alloc, bytes),
            Maker::Simple => cook_simple(alloc, bytes),
            Maker::Escape => escape(alloc, bytes),
        };
        made.expect(rt, "memory").as_slice() == text
    }
}

const MADE: &[(Maker, &[u8], &[u8])] = &[
    (Maker::Text, b"a\\]b\\\nc\td", b"a]bc d"),
    (Maker::Text, b"a\r\nb", b"a\nb"),
    (Maker::Simple, b"a\r\nb", b"a b"),
    (Maker::Text, b"\n\r\r\n\r\r", b"\n\n\n\n"),
    (Maker::Simple, b"a\\\r\nb\\", b"ab"),
    (Maker::Escape, b"a]b\\", b"a\\]b\\\\"),
    (Maker::Text, b"", b""),
    (Maker::Simple, b"", b""),
    (Maker::Escape, b"", b""),
];

#[test]
fn cooked_and_escaped(rt: HostRuntime) {
    for (number, (maker, bytes, text)) in MADE.iter().enumerate() {
        assert!(rt; maker.makes(&rt, rt.alloc(), bytes, text), "row {number}");
    }
}

/// A piece of a value or a text, and what is made of it, each a thousand times before a letter.
const MADE_AT_LENGTH: &[(Maker, &[u8], &[u8])] = &[
    (Maker::Text, b"a\\]\n", b"a]\n"),
    (Maker::Simple, b"a\\]\n", b"a] "),
    (Maker::Escape, b"a]\n", b"a\\]\n"),
];

#[test]
fn cooked_and_escaped_at_length(rt: HostRuntime) -> Result<(), Fail> {
    for (number, (maker, piece, made)) in MADE_AT_LENGTH.iter().enumerate() {
        let bytes = copies(rt.alloc(), piece, 1_000, b"b")?;
        let text = copies(rt.alloc(), made, 1_000, b"b")?;
        let is_made = maker.makes(&rt, rt.alloc(), bytes.as_slice(), text.as_slice());
        assert!(rt; is_made, "row {number}");
    }
    Ok(())
}

/// Adds the points of a row.
fn push_row(points: &mut Vec<Point>, row: Row) -> Result<(), AllocError> {
    for point in row {
        points.push(point)?;
    }
    Ok(())
}

/// The points of a rectangle, row by row.
fn listed(alloc: Global, rectangle: Rectangle) -> Result<Vec<Point>, AllocError> {
    let mut points = Vec::new(alloc);
    for number in 0..rectangle.rows() {
        push_row(&mut points, rectangle.row(number))?;
    }
    Ok(points)
}

/// Whether points on nine lines are those that words name, in this order.
fn are(points: &[Point], words: &[&[u8]], size: Size) -> bool {
    for (point, word) in points.iter().zip(words) {
        if read_vertex(word, size) != Ok(Vertex::At(*point)) {
            return false;
        }
    }
    points.len() == words.len()
}

/// Whether a value names these points on nine lines, by their words.
fn names(rt: &impl Abort, alloc: Global, value: &[u8], words: &[&[u8]]) -> bool {
    let rectangle = points_in(value, nine(rt)).expect(rt, "points");
    let points = listed(alloc, rectangle).expect(rt, "memory");
    are(points.as_slice(), words, nine(rt))
}

const MOVES: &[(&[u8], Option<Vertex>)] = &[
    (b"aa", Some(Vertex::At(Point { col: 0, row: 8 }))),
    (b" cc ", Some(Vertex::At(Point { col: 2, row: 6 }))),
    (b"", Some(Vertex::Pass)),
    (b"tt", Some(Vertex::Pass)),
    (b"jj", None),
    (b"a", None),
    (b"aaa", None),
    (b"AA", None),
    (b"a a", None),
    (b"ja", None),
];

#[test]
fn the_point_of_a_move(rt: HostRuntime) {
    for (number, (value, vertex)) in MOVES.iter().enumerate() {
        assert!(rt; point_of(value, nine(&rt)) == *vertex, "row {number}");
    }
}

/// Values, and the points that they name, row by row from below.
const POINTS: &[(&[u8], &[&[u8]])] = &[
    (b"aa", &[b"a9"]),
    (b"\tcc\n", &[b"c7"]),
    (b"", &[]),
    (b" \n", &[]),
    (b"aa:bb", &[b"a8", b"b8", b"a9", b"b9"]),
    (b"bb:aa", &[b"a8", b"b8", b"a9", b"b9"]),
    (b"ba:ab", &[b"a8", b"b8", b"a9", b"b9"]),
    (b"ab:ba", &[b"a8", b"b8", b"a9", b"b9"]),
    (b" aa : ba ", &[b"a9", b"b9"]),
    (b"ig:ii", &[b"j1", b"j2", b"j3"]),
    (b"ii:ig", &[b"j1", b"j2", b"j3"]),
    (b"ee:ee", &[b"e5"]),
];

#[test]
fn points_of_a_value(rt: HostRuntime) {
    for (number, (value, words)) in POINTS.iter().enumerate() {
        assert!(rt; names(&rt, rt.alloc(), value, words), "row {number}");
    }
}

const MALFORMED: &[&[u8]] = &[
    b"tt",
    b"aa:",
    b":aa",
    b":",
    b"aa:bb:cc",
    b"aa:jj",
    b"jj:aa",
    b"a",
    b"AA",
];

#[test]
fn malformed_values(rt: HostRuntime) {
    for (number, value) in MALFORMED.iter().enumerate() {
        assert!(rt; points_in(value, nine(&rt)).is_none(), "row {number}");
    }
}

/// Whether values name these points on nine lines, by their words, or name none.
fn list(rt: &impl Abort, alloc: Global, values: &[&[u8]], words: Option<&[&[u8]]>) -> bool {
    let points = points_of(alloc, values, nine(rt)).expect(rt, "memory");
    match (points, words) {
        (Some(points), Some(words)) => are(points.as_slice(), words, nine(rt)),
        (None, None) => true,
        _ => false,
    }
}

const LISTS: &[(&[&[u8]], Option<&[&[u8]]>)] = &[
    (
        &[b"bb:aa", b"aa"],
        Some(&[b"a8", b"b8", b"a9", b"b9", b"a9"]),
    ),
    (&[b""], Some(&[])),
    (&[], Some(&[])),
    (&[b"aa", b"tt"], None),
    (&[b"aa", b"aa:"], None),
    (&[b"aa", b"jj"], None),
];

#[test]
fn points_of_values(rt: HostRuntime) {
    for (number, (values, words)) in LISTS.iter().enumerate() {
        assert!(rt; list(&rt, rt.alloc(), values, *words), "row {number}");
    }
}

#[test]
fn a_point_after_spaces(rt: HostRuntime) -> Result<(), Fail> {
    let padded = copies(rt.alloc(), b" ", 1_500, b"aa")?;
    assert!(rt; names(&rt, rt.alloc(), padded.as_slice(), &[b"a9"]));
    Ok(())
}

/// Numbers of points of the largest board, and the points.
const NUMBERED: &[(usize, Point)] = &[
    (0, Point { col: 0, row: 0 }),
    (26, Point { col: 1, row: 1 }),
    (624, Point { col: 24, row: 24 }),
];

/// Whether points are numbered so.
fn are_numbered(points: &[Point]) -> bool {
    for (number, point) in NUMBERED {
        if points.get(*number) != Some(point) {
            return false;
        }
    }
    points.len() == 625
}

#[test]
fn the_largest_rectangle(rt: HostRuntime) {
    let largest = Size::new(25).expect(&rt, "a size");
    let rectangle = points_in(b"ya:ay", largest).expect(&rt, "points");
    assert_eq!(rt; rectangle.rows(), 25);
    let points = listed(rt.alloc(), rectangle).expect(&rt, "memory");
    assert!(rt; are_numbered(points.as_slice()));
}

/// The only point that a value names.
fn only(value: &[u8], size: Size) -> Option<Point> {
    let rectangle = points_in(value, size)?;
    if rectangle.rows() == 1 {
        rectangle.row(0).next()
    } else {
        None
    }
}

#[test]
fn two_letters_t(rt: HostRuntime) {
    let nineteen = Size::new(19).expect(&rt, "a size");
    assert!(rt; point_of(b"tt", nineteen) == Some(Vertex::Pass));
    assert!(rt; points_in(b"tt", nineteen).is_none());
    for (lines, row) in [(20u8, 0u8), (25, 5)] {
        let size = Size::new(lines).expect(&rt, "a size");
        let point = Point { col: 19, row };
        assert!(rt; point_of(b"tt", size) == Some(Vertex::At(point)));
        assert!(rt; only(b"tt", size) == Some(point));
    }
}

const NUMBERS: &[(&[u8], Option<u32>)] = &[
    (b"+1", Some(1)),
    (b" 007\n", Some(7)),
    (b"2147483647", Some(2_147_483_647)),
    (b"2147483648", None),
    (b"", None),
    (b"-1", None),
    (b"+", None),
    (b"1 2", None),
    (b"99999999999999999999", None),
];

#[test]
fn numbers(rt: HostRuntime) {
    for (row, (word, number)) in NUMBERS.iter().enumerate() {
        assert!(rt; number_of(word) == *number, "row {row}");
    }
}

const HUNDREDTHS: &[(&[u8], Option<i64>)] = &[
    (b" 6.50 ", Some(650)),
    (b"6.", Some(600)),
    (b".5", Some(50)),
    (b"-0.5", Some(-50)),
    (b"+999999999.99", Some(99_999_999_999)),
    (b"", None),
    (b"6.505", None),
    (b"1000000000", None),
    (b".", None),
    (b"1e3", None),
    (b"--1", None),
    (b"1.2.3", None),
];

#[test]
fn hundredths(rt: HostRuntime) {
    for (row, (word, number)) in HUNDREDTHS.iter().enumerate() {
        assert!(rt; hundredths_of(word) == *number, "row {row}");
    }
}

/// Whether a record is read with this allocator. If not, asserts that it was out of memory.
fn reads<A: Allocator + Copy>(rt: &impl Abort, alloc: A) -> bool {
    match read(alloc, SAMPLE) {
        Ok(_) => true,
        Err(why) => {
            assert!(rt; why == SgfError::Memory);
            false
        }
    }
}

#[test]
fn read_always_memory(rt: HostRuntime) {
    assert!(rt; reads(&rt, rt.alloc()));
}

/// Whether a call succeeds with this allocator.
fn is_done<A: Allocator + Copy>(rt: &impl Abort, alloc: A, call: u8) -> bool {
    match call {
        0 => reads(rt, alloc),
        1 => cook_text(alloc, b"a\\]b").is_ok(),
        2 => cook_simple(alloc, b"a\nb").is_ok(),
        3 => points_of(alloc, &[b"aa:ii".as_slice()], nine(rt)).is_ok(),
        _ => escape(alloc, b"]]]]").is_ok(),
    }
}

/// How many requests a call makes, each of which it is refused with.
fn each_refused(rt: &impl Abort, alloc: Global, call: u8) -> u64 {
    for number in 1..100u64 {
        let failing = Refusing::nth_request(alloc, number);
        let done = is_done(rt, &failing, call);
        assert!(rt; done == failing.waits(), "request {number} of call {call}");
        if done {
            return number - 1;
        }
    }
    0
}

#[test]
fn each_request_for_memory_refused(rt: HostRuntime) {
    for call in 0..5u8 {
        let requests = each_refused(&rt, rt.alloc(), call);
        assert!(rt;
            requests > 0 && requests < 50,
            "{requests} requests of call {call}"
        );
    }
}
