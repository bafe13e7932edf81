//! Runs the tools, and checks what both do where devices fail or memory is refused.
use goref_tools::{ToolError, judge_run, tidy_run};
use std::alloc::{Allocator, Global};
use std::process::Abort;
use test_allocator::Refusing;
use test_devices::{Reader, Writer};

/// One of the tools.
#[derive(Clone, Copy)]
pub(crate) enum Tool {
    Tidy,
    Judge,
}

impl Tool {
    /// Runs the tool, and says how that ends.
    pub(crate) fn run<A: Allocator + Copy>(
        self,
        alloc: A,
        reader: &mut Reader<'_>,
        writer: &mut Writer<Global>,
    ) -> Result<(), ToolError> {
        match self {
            Tool::Tidy => tidy_run(alloc, reader, writer),
            Tool::Judge => judge_run(alloc, reader, writer),
        }
    }

    /// Whether this is written of a source, however it is read and written, with one flush.
    pub(crate) fn writes(self, alloc: Global, source: &[u8], text: &[u8]) -> bool {
        for (most, least) in [(1, 4_096), (2, 1), (7, 3), (4_096, 7)] {
            let reader = Reader::new(source).in_pieces_of(most);
            let writer = Writer::new(alloc).in_pieces_of(least);
            if !self.writes_on(alloc, reader, writer, text) {
                return false;
            }
        }
        true
    }

    /// Whether this is written on a device, with one flush.
    fn writes_on(
        self,
        alloc: Global,
        mut reader: Reader<'_>,
        mut writer: Writer<Global>,
        text: &[u8],
    ) -> bool {
        self.run(alloc, &mut reader, &mut writer).is_ok()
            && writer.bytes() == text
            && writer.flush_count() == 1
    }

    /// Whether nothing is written of what is read, for this reason.
    pub(crate) fn fails(self, alloc: Global, mut reader: Reader<'_>, fault: ToolError) -> bool {
        let mut writer = Writer::new(alloc);
        self.run(alloc, &mut reader, &mut writer) == Err(fault)
            && writer.put_count() == 0
            && writer.flush_count() == 0
    }

    /// Whether a run fails at its writer, which takes this prefix of the text.
    fn takes(
        self,
        alloc: Global,
        source: &[u8],
        mut writer: Writer<Global>,
        prefix: &[u8],
    ) -> bool {
        self.run(alloc, &mut Reader::new(source), &mut writer) == Err(ToolError::Write)
            && writer.bytes() == prefix
    }

    /// Asserts what is left where each read, each write and the flush fails in turn.
    pub(crate) fn meets_faults(self, rt: &impl Abort, alloc: Global, source: &[u8], text: &[u8]) {
        for byte in 0..=source.len() as u64 {
            let reader = Reader::new(source).in_pieces_of(1).failing_at(byte + 1);
            assert!(rt; self.fails(alloc, reader, ToolError::Read), "byte {byte}");
        }
        for byte in 0..text.len() {
            let prefix = text.split_at(byte).0;
            assert!(rt; self.breaks_off(alloc, source, prefix), "byte {byte}");
        }
        let unflushed = Writer::new(alloc).failing_at_flush(1);
        assert!(rt; self.takes(alloc, source, unflushed, text));
    }

    /// Whether no more than a prefix is written, where the write after it fails or takes nothing.
    fn breaks_off(self, alloc: Global, source: &[u8], prefix: &[u8]) -> bool {
        let put = (prefix.len() as u64).saturating_add(1);
        let failing = Writer::new(alloc).in_pieces_of(1).failing_at_put(put);
        let stalling = Writer::new(alloc).in_pieces_of(1).stalling_at_put(put);
        self.takes(alloc, source, failing, prefix) && self.takes(alloc, source, stalling, prefix)
    }

    /// Whether a source is written with this allocator. If not, asserts that there was no memory, and that
    /// nothing was written.
    fn has_memory<A: Allocator + Copy>(
        self,
        rt: &impl Abort,
        alloc: A,
        ample: Global,
        source: &[u8],
        text: &[u8],
    ) -> bool {
        let mut writer = Writer::new(ample);
        let end = self.run(alloc, &mut Reader::new(source), &mut writer);
        if end.is_ok() {
            assert!(rt; writer.bytes() == text);
        } else {
            assert!(rt; end == Err(ToolError::Memory));
            assert!(rt; writer.put_count() == 0 && writer.flush_count() == 0);
        }
        end.is_ok()
    }

    /// How many requests for memory a run makes, each of which was refused in turn.
    pub(crate) fn requests(
        self,
        rt: &impl Abort,
        alloc: Global,
        source: &[u8],
        text: &[u8],
    ) -> u64 {
        for number in 1..200u64 {
            let failing = Refusing::nth_request(alloc, number);
            let done = self.has_memory(rt, &failing, alloc, source, text);
            assert!(rt; done == failing.waits(), "request {number}");
            if done {
                return number - 1;
            }
        }
        panic!(rt; "no end of requests")
    }
}

/// Asserts the text of a fault, and its exit status.
pub(crate) fn assert_fault_text(
    rt: &impl Abort,
    alloc: Global,
    fault: ToolError,
    text: &str,
    status: u8,
) {
    let words = format!(in alloc; "{fault}").expect(rt, "a text");
    assert!(rt; words.as_str() == text, "{words}");
    assert!(rt; fault.status() == status, "{words}");
}
