//! Ranges of handles.
ghost use Rattle.naga_json.specs.Range.{range_codec};
ghost use Rattle.naga_json_write.specs.Encoding.{direct};

use crate::to_json::ToJson;
use crate::writer::Writer;
use naga_arena::KindRange;
use std::alloc::AllocError;

impl<K> ToJson for KindRange<K> {
    ghost encoding = { direct range_codec.encode };

    fn write(&self, out: &mut Writer) -> Result<(), AllocError> {
        let bounds = self.index_range();
        write_struct! { bounds, out; start, end }
    }
}
