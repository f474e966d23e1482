//! Doc comments.
ghost use Rattle.naga_json.specs.DocComments.{comments_value, doc_comments_codec};
ghost use Rattle.naga_json_round_trip.specs.Module.{written_comments};

use super::InRange;
use super::maps::keys_in_range;
use naga_ir::DocComments;

impl InRange for DocComments {
    ghost Fits = { λ comments. doc_comments_codec.Fits (written_comments (comments_value comments)) };

    fn in_range(&self) {
        keys_in_range(&self.types);
        keys_in_range(&self.entry_points);
        keys_in_range(&self.functions);
        keys_in_range(&self.constants);
        keys_in_range(&self.global_variables);
    }
}
