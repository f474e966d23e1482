//! The texts of the attributes that bind inputs and outputs of entry points.
ghost use Rattle.std.specs.Prelude.{◌≡◌, ◌++◌, OnOk, codes};
ghost use Rattle.std.specs.Fmt.{decimal};
ghost use Rattle.std.specs.Option.{option_copied};
ghost use Rattle.naga_wgsl.specs.Bindings.{binding_text, blend_text, built_in_text, interpolation_name, interpolation_text, location_text, named_interpolation_text, sampling_name, sampling_text};
ghost use Rattle.naga_wgsl.specs.Types.{name_or};
ghost use Rattle.naga_wgsl.specs.WriteError.{Attempts, Writes};
ghost use Rattle.naga_wgsl.specs.declared.write_error.Cause.TheVariants.{Binding as OfBinding};

use crate::write_error::{Cause, WriteError};
use naga_kinds::{Binding, BuiltIn, Interpolation, Sampling};
use naga_text::Text;
use std::alloc::AllocError;

/// Appends the attributes of a binding, if there is one, each with a space after it, as in `@location(0) ` or
/// `@builtin(position) @invariant `.
///
/// Returns `Err` if WGSL has no such binding, or allocation fails. A part of the text may then have been appended.
pub fn write_binding(text: &mut Text, binding: &Option<Binding>) -> Result<(), WriteError>
    ensures { Attempts (binding_text binding.now) text.old text.new result }
{
    match binding {
        None => Ok(()),
        Some(Binding::BuiltIn(value)) => write_built_in(text, *value),
        Some(
            Binding::Location {
                location,
                interpolation,
                sampling,
                blend_src,
                per_primitive,
            },
        ) => write_location(
            text,
            *location,
            *interpolation,
            *sampling,
            *blend_src,
            *per_primitive,
        ),
    }
}

/// Appends the attributes of a built-in value. Returns `Err` if WGSL does not have it, or allocation fails.
fn write_built_in(text: &mut Text, value: BuiltIn) -> Result<(), WriteError>
    ensures { Attempts (name_or OfBinding (built_in_text value)) text.old text.new result }
{
    match built_in_text(value) {
        Some(attributes) => {
            text.push(attributes)?;
            Ok(())
        }
        None => Err(WriteError::Inexpressible(Cause::Binding)),
    }
}

/// Returns the attributes of a built-in value, or `None` if WGSL does not have it.
fn built_in_text(value: BuiltIn) -> Option<&'static str>
    ensures { option_copied result ≡ built_in_text value }
{
    match value {
        BuiltIn::Position { invariant: false } => Some("@builtin(position) "),
        BuiltIn::Position { invariant: true } => Some("@builtin(position) @invariant "),
        BuiltIn::PrimitiveIndex => Some("@builtin(primitive_index) "),
        BuiltIn::ClipDistances => Some("@builtin(clip_distances) "),
        BuiltIn::InstanceIndex => Some("@builtin(instance_index) "),
        BuiltIn::VertexIndex => Some("@builtin(vertex_index) "),
        BuiltIn::FragDepth => Some("@builtin(frag_depth) "),
        BuiltIn::FrontFacing => Some("@builtin(front_facing) "),
        BuiltIn::SampleIndex => Some("@builtin(sample_index) "),
        BuiltIn::SampleMask => Some("@builtin(sample_mask) "),
        BuiltIn::GlobalInvocationId => Some("@builtin(global_invocation_id) "),
        BuiltIn::LocalInvocationId => Some("@builtin(local_invocation_id) "),
        BuiltIn::LocalInvocationIndex => Some("@builtin(local_invocation_index) "),
        BuiltIn::WorkGroupId => Some("@builtin(workgroup_id) "),
        BuiltIn::NumWorkGroups => Some("@builtin(num_workgroups) "),
        BuiltIn::NumSubgroups => Some("@builtin(num_subgroups) "),
        BuiltIn::SubgroupId => Some("@builtin(subgroup_id) "),
        BuiltIn::SubgroupSize => Some("@builtin(subgroup_size) "),
        BuiltIn::SubgroupInvocationId => Some("@builtin(subgroup_invocation_id) "),
        _ => None,
    }
}

/// Appends the attributes of a location. Returns `Err` if WGSL has no such location, or allocation fails.
fn write_location(
    text: &mut Text,
    location: u32,
    interpolation: Option<Interpolation>,
    sampling: Option<Sampling>,
    blend_src: Option<u32>,
    per_primitive: bool,
) -> Result<(), WriteError>
    ensures { Attempts (location_text location interpolation sampling blend_src per_primitive) text.old text.new result }
{
    if per_primitive {
        return Err(WriteError::Inexpressible(Cause::Binding));
    }
    push_location(text, location, blend_src)?;
    write_interpolation(text, interpolation, sampling)
}

/// Appends the number of a location, and the index from which its colour is blended, if there is one. Returns `Err` if
/// allocation fails.
fn push_location(text: &mut Text, location: u32, blend_src: Option<u32>) -> Result<(), AllocError>
    ensures { OnOk result (text.new ≡ text.old ++ (codes "@location(" ++ (decimal location ++ (codes ") " ++ blend_text blend_src)))) }
{
    text.push("@location(")?;
    text.push_number(u64::from(location))?;
    text.push(") ")?;
    push_blend(text, blend_src)
}

/// Appends the index from which a colour is blended, if there is one. Returns `Err` if allocation fails.
fn push_blend(text: &mut Text, blend_src: Option<u32>) -> Result<(), AllocError>
    ensures { OnOk result (text.new ≡ text.old ++ blend_text blend_src) }
{
    match blend_src {
        Some(index) => push_blend_index(text, index),
        None => Ok(()),
    }
}

/// Appends an index from which a colour is blended. Returns `Err` if allocation fails.
fn push_blend_index(text: &mut Text, index: u32) -> Result<(), AllocError>
    ensures { OnOk result (text.new ≡ text.old ++ (codes "@blend_src(" ++ (decimal index ++ codes ") "))) }
{
    text.push("@blend_src(")?;
    push_closed(text, index)
}

/// Appends the number of an attribute, and a parenthesis and a space behind it. Returns `Err` if allocation fails.
pub(crate) fn push_closed(text: &mut Text, number: u32) -> Result<(), AllocError>
    ensures { OnOk result (text.new ≡ text.old ++ (decimal number ++ codes ") ")) }
{
    text.push_number(u64::from(number))?;
    text.push(") ")
}

/// Appends the attribute of an interpolation, if there is one. Returns `Err` if WGSL does not have it, there is only a
/// sampling, or allocation fails.
fn write_interpolation(
    text: &mut Text,
    interpolation: Option<Interpolation>,
    sampling: Option<Sampling>,
) -> Result<(), WriteError>
    ensures { Writes (interpolation_text interpolation sampling) text.old text.new result }
{
    match (interpolation, sampling) {
        (Some(kind), _) => write_named_interpolation(text, interpolation_name(kind), sampling),
        (None, Some(_)) => Err(WriteError::Inexpressible(Cause::Binding)),
        (None, None) => Ok(()),
    }
}

/// Appends the attribute of an interpolation that has a name. Returns `Err` if it has none, or allocation fails.
fn write_named_interpolation(
    text: &mut Text,
    name: Option<&'static str>,
    sampling: Option<Sampling>,
) -> Result<(), WriteError>
    ensures { Writes (named_interpolation_text (option_copied name.entry) sampling) text.old text.new result }
{
    match name {
        Some(name) => {
            push_interpolation(text, name, sampling)?;
            Ok(())
        }
        None => Err(WriteError::Inexpressible(Cause::Binding)),
    }
}

/// Appends the attribute of an interpolation with a name. Returns `Err` if allocation fails.
fn push_interpolation(
    text: &mut Text,
    name: &str,
    sampling: Option<Sampling>,
) -> Result<(), AllocError>
    ensures { OnOk result (text.new ≡ text.old ++ (codes "@interpolate(" ++ (name.now ++ (sampling_text sampling ++ codes ") ")))) }
{
    text.push("@interpolate(")?;
    text.push(name)?;
    push_sampling(text, sampling)?;
    text.push(") ")
}

/// Appends a sampling behind an interpolation, if there is one. Returns `Err` if allocation fails.
fn push_sampling(text: &mut Text, sampling: Option<Sampling>) -> Result<(), AllocError>
    ensures { OnOk result (text.new ≡ text.old ++ sampling_text sampling) }
{
    match sampling {
        Some(sampling) => {
            text.push(", ")?;
            text.push(sampling_name(sampling))
        }
        None => Ok(()),
    }
}

/// Returns the name of an interpolation, or `None` if WGSL does not have it.
fn interpolation_name(interpolation: Interpolation) -> Option<&'static str>
    ensures { option_copied result ≡ interpolation_name interpolation }
{
    match interpolation {
        Interpolation::Perspective => Some("perspective"),
        Interpolation::Linear => Some("linear"),
        Interpolation::Flat => Some("flat"),
        Interpolation::PerVertex => None,
    }
}

/// Returns the name of a sampling.
fn sampling_name(sampling: Sampling) -> &'static str
    ensures { result.now ≡ sampling_name sampling }
{
    match sampling {
        Sampling::Center => "center",
        Sampling::Centroid => "centroid",
        Sampling::Sample => "sample",
        Sampling::First => "first",
        Sampling::Either => "either",
    }
}
