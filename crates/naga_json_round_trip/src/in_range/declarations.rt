//! Types, special types and diagnostic filters.
ghost use Rattle.naga_ir.specs.Types.{type_of};
ghost use Rattle.naga_json.specs.DiagnosticFilter.{node_codec, node_value};
ghost use Rattle.naga_json.specs.SpecialTypes.{special_types_codec, special_types_value};
ghost use Rattle.naga_json.specs.Types.{type_codec};
ghost use Rattle.naga_json_round_trip.specs.Module.{written_special_types};

use super::InRange;
use naga_ir::{SpecialTypes, Type};
use naga_kinds::DiagnosticFilterNode;

impl InRange for SpecialTypes {
    ghost Fits = { λ special. special_types_codec.Fits (written_special_types (special_types_value special)) };

    fn in_range(&self) {
        self.ray_desc.in_range();
        self.ray_intersection.in_range();
        self.ray_vertex_return.in_range();
        self.external_texture_params.in_range();
        self.external_texture_transfer_function.in_range();
    }
}

impl InRange for DiagnosticFilterNode {
    ghost Fits = { λ node. node_codec.Fits (node_value node) };

    fn in_range(&self) {
        self.parent.in_range();
    }
}

impl InRange for Type {
    ghost Fits = { λ named. type_codec.Fits (type_of named) };

    fn in_range(&self) {
        self.inner.in_range();
    }
}
