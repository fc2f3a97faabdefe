// Records of their fields, as csv writes them.
ghost use Rattle.std.specs.Prelude.{◌≡◌, ◌≤◌, ◌++◌, IfOk, OnOk, drop, length, map};
ghost use Rattle.fd_report.specs.Lines.{IsReady, line_of, text_of};

use csv::{Writer, WriterBuilder};
use dss_script::{Bytes, Record};
use std::alloc::{AllocError, Global};

/// Writes records one behind another by one csv writer, whose buffers are made once.
#[derive(Drop)]
pub struct RecordWriter {
    writer: Writer<Vec<u8>>,
}

impl RecordWriter {
    /// A writer that has written no record. Its records may differ in their number of fields.
    pub fn new(alloc: Global) -> RecordWriter
        ensures ready { IsReady result }
    {
        let writer = WriterBuilder::new()
            .flexible(true)
            .from_writer(Vec::new(alloc));
        RecordWriter { writer }
    }

    // Writes a record behind those that stand.
    fn write(&mut self, fields: &[&[u8]]) -> Result<(), csv::Error>
        requires { IsReady self.old }
        ensures ready { OnOk result (IsReady self.new) }
        ensures text { OnOk result (text_of self.new ≡ text_of self.old ++ line_of (map (λ f. f.now) fields.now)) }
    {
        self.writer.write_fields(fields)?;
        self.writer.flush()?;
        Ok(())
    }

    // What stands from this place on.
    fn text_from(&self, alloc: Global, start: usize) -> Result<Vec<u8>, AllocError>
        requires { start ≤ length (text_of self.now) }
        ensures { IfOk result (λ v. v.items ≡ drop start (text_of self.now)) }
    {
        let mut text = Vec::new(alloc);
        text.extend_from_slice(&self.writer.get_ref()[start..])?;
        Ok(text)
    }

    /// A record of these fields. Over a vector nothing but memory can fail.
    pub(crate) fn record(&mut self, alloc: Global, fields: &[&[u8]]) -> Result<Record, AllocError>
        requires { IsReady self.old }
        ensures ready { OnOk result (IsReady self.new) }
        ensures text { IfOk result (λ r. r.bytes ≡ line_of (map (λ f. f.now) fields.now)) }
    {
        let start = self.writer.get_ref().len();
        if self.write(fields).is_err() {
            return Err(AllocError);
        }
        Ok(Record {
            bytes: Bytes::new(self.text_from(alloc, start)?),
        })
    }
}

/// A record of these fields.
pub(crate) fn record_of(alloc: Global, fields: &[&[u8]]) -> Result<Record, AllocError>
    ensures { IfOk result (λ r. r.bytes ≡ line_of (map (λ f. f.now) fields.now)) }
{
    RecordWriter::new(alloc).record(alloc, fields)
}
