// Made by tests/derive from the declarations of naga_kinds and naga_ir.
//! What naga_kinds declares.
ghost use Rattle.naga_json.specs.derived.AddressSpace.{address_space_codec};
ghost use Rattle.naga_json.specs.derived.Binding.{binding_codec, resource_binding_codec};
ghost use Rattle.naga_json.specs.derived.Image.{image_class_codec};
ghost use Rattle.naga_json.specs.derived.Scalar.{scalar_codec};
ghost use Rattle.naga_json.specs.derived.Switch.{switch_value_codec};

use crate::in_range::InRange;
use naga_kinds::{AddressSpace, Binding, ImageClass, ResourceBinding, Scalar, SwitchValue};

impl InRange for AddressSpace {
    ghost Fits = { address_space_codec.Fits };

    fn in_range(&self) {
        match self {
            AddressSpace::Function => {}
            AddressSpace::Private => {}
            AddressSpace::WorkGroup => {}
            AddressSpace::Uniform => {}
            AddressSpace::Storage { access } => access.in_range(),
            AddressSpace::Handle => {}
            AddressSpace::Immediate => {}
            AddressSpace::TaskPayload => {}
            AddressSpace::RayPayload => {}
            AddressSpace::IncomingRayPayload => {}
        }
    }
}

impl InRange for Binding {
    ghost Fits = { binding_codec.Fits };

    fn in_range(&self) {
        match self {
            Binding::BuiltIn(_) => {}
            Binding::Location {
                location,
                blend_src,
                ..
            } => {
                location.in_range();
                blend_src.in_range();
            }
        }
    }
}

impl InRange for ResourceBinding {
    ghost Fits = { resource_binding_codec.Fits };

    fn in_range(&self) {
        self.group.in_range();
        self.binding.in_range();
    }
}

impl InRange for ImageClass {
    ghost Fits = { image_class_codec.Fits };

    fn in_range(&self) {
        match self {
            ImageClass::Sampled { .. } => {}
            ImageClass::Depth { .. } => {}
            ImageClass::External => {}
            ImageClass::Storage { access, .. } => access.in_range(),
        }
    }
}

impl InRange for Scalar {
    ghost Fits = { scalar_codec.Fits };

    fn in_range(&self) {
        self.width.in_range();
    }
}

impl InRange for SwitchValue {
    ghost Fits = { switch_value_codec.Fits };

    fn in_range(&self) {
        match self {
            SwitchValue::I32(held) => held.in_range(),
            SwitchValue::U32(held) => held.in_range(),
            SwitchValue::Default => {}
        }
    }
}
