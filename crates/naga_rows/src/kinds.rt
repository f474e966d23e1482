//! Kinds whose variants contain no data: their names and their order, and the functions on them.
use anyhow::Result;
use naga_kinds::{
    BinaryOperator, CollectiveOperation, ConservativeDepth, CooperativeRole, CooperativeSize,
    DerivativeAxis, DerivativeControl, Direction, GlslScalar, GlslScalarKind, GlslVectorSize,
    ImageDimension, Interpolation, MathFunction, MeshOutputTopology, PlainKind, RelationalFunction,
    Sampling, Scalar, ScalarKind, Severity, ShaderStage, StandardFilterableTriggeringRule,
    StorageFormat, SubgroupOperation, SwizzleComponent, UnaryOperator, VectorSize,
};
use std::fmt::Debug;

/// Prints the answer to a question about a text: the name of a kind and, after a blank, the name of a variant, or the
/// name of a variant alone.
pub(crate) fn answer(rt: &impl Print, question: &str, text: &str) -> Result<()> {
    match question {
        "name" => {
            let (kind, name) = text.split_once(' ').unwrap_or((text, ""));
            answer_kind(rt, kind, name)
        }
        "arguments" => show_function(rt, text),
        "format" => show_format(rt, text),
        "glsl" => show_glsl(rt, text),
        "size" => show_size(rt, text),
        "component" => show_component(rt, text),
        _ => show_nothing(rt),
    }
}

/// Prints that nothing answers a question.
fn show_nothing(rt: &impl Print) -> Result<()> {
    println!(rt; "nothing")?;
    Ok(())
}

/// Prints the variant of a kind with this name.
fn answer_kind(rt: &impl Print, kind: &str, name: &str) -> Result<()> {
    match kind {
        "ScalarKind" => show_ordered::<ScalarKind>(rt, name),
        "VectorSize" => show_ordered::<VectorSize>(rt, name),
        "CooperativeSize" => show_ordered::<CooperativeSize>(rt, name),
        "CooperativeRole" => show_ordered::<CooperativeRole>(rt, name),
        "SwizzleComponent" => show_ordered::<SwizzleComponent>(rt, name),
        "StorageFormat" => show_ordered::<StorageFormat>(rt, name),
        "ImageDimension" => show_ordered::<ImageDimension>(rt, name),
        "Interpolation" => show_ordered::<Interpolation>(rt, name),
        _ => answer_operator(rt, kind, name),
    }
}

/// Prints the variant of a kind of operators or functions with this name.
fn answer_operator(rt: &impl Print, kind: &str, name: &str) -> Result<()> {
    match kind {
        "Sampling" => show_ordered::<Sampling>(rt, name),
        "UnaryOperator" => show_ordered::<UnaryOperator>(rt, name),
        "BinaryOperator" => show_ordered::<BinaryOperator>(rt, name),
        "DerivativeControl" => show_ordered::<DerivativeControl>(rt, name),
        "DerivativeAxis" => show_ordered::<DerivativeAxis>(rt, name),
        "RelationalFunction" => show_ordered::<RelationalFunction>(rt, name),
        "MathFunction" => show_ordered::<MathFunction>(rt, name),
        "Direction" => show_ordered::<Direction>(rt, name),
        _ => answer_other(rt, kind, name),
    }
}

/// Prints the variant of another kind with this name.
fn answer_other(rt: &impl Print, kind: &str, name: &str) -> Result<()> {
    match kind {
        "SubgroupOperation" => show_ordered::<SubgroupOperation>(rt, name),
        "CollectiveOperation" => show_ordered::<CollectiveOperation>(rt, name),
        "ShaderStage" => show_named::<ShaderStage>(rt, name),
        "ConservativeDepth" => show_ordered::<ConservativeDepth>(rt, name),
        "MeshOutputTopology" => show_named::<MeshOutputTopology>(rt, name),
        "Severity" => show_ordered::<Severity>(rt, name),
        "StandardFilterableTriggeringRule" => {
            show_ordered::<StandardFilterableTriggeringRule>(rt, name)
        }
        _ => show_nothing(rt),
    }
}

/// Returns the number of variants before this one.
fn position<T: PlainKind + PartialEq>(kind: T) -> usize {
    let mut position = 0usize;
    for variant in T::variants() {
        if *variant == kind {
            return position;
        }
        position = position.saturating_add(1);
    }
    position
}

/// Returns the number of variants that are less than this one.
fn count_less<T: PlainKind + PartialOrd>(kind: T) -> usize {
    let mut count = 0usize;
    for variant in T::variants() {
        if *variant < kind {
            count = count.saturating_add(1);
        }
    }
    count
}

/// Prints the name of the variant with this name, its position, the number of all variants, and its debug text.
fn show_named<T: PlainKind + PartialEq + Debug>(rt: &impl Print, name: &str) -> Result<()> {
    match T::from_name(name) {
        Some(kind) => {
            let (position, count) = (position(kind), T::variants().len());
            println!(rt; "{}, {position} of {count}, {kind:?}", kind.name())?;
        }
        None => println!(rt; "nothing")?,
    }
    Ok(())
}

/// Prints the same and, before it, the number of variants that are less, if that is not the position.
fn show_ordered<T: PlainKind + PartialOrd + PartialEq + Debug>(
    rt: &impl Print,
    name: &str,
) -> Result<()> {
    if let Some(kind) = T::from_name(name) {
        let less = count_less(kind);
        if less != position(kind) {
            print!(rt; "{less} are less, ")?;
        }
    }
    show_named::<T>(rt, name)
}

/// Prints the number of arguments of a mathematical function.
fn show_function(rt: &impl Print, name: &str) -> Result<()> {
    match MathFunction::from_name(name) {
        Some(function) => println!(rt; "{}", function.argument_count())?,
        None => println!(rt; "nothing")?,
    }
    Ok(())
}

/// Prints the scalar of a format.
fn show_format(rt: &impl Print, name: &str) -> Result<()> {
    match StorageFormat::from_name(name) {
        Some(format) => println!(rt; "{:?}", Scalar::from(format))?,
        None => println!(rt; "nothing")?,
    }
    Ok(())
}

/// Prints the kind of scalars that a kind is in GLSL, and the scalar of 3 bytes.
fn show_glsl(rt: &impl Print, name: &str) -> Result<()> {
    match ScalarKind::from_name(name) {
        Some(kind) => {
            let scalar = GlslScalar::try_from(Scalar { kind, width: 3 }).ok();
            println!(rt; "{:?}, {scalar:?}", GlslScalarKind::try_from(kind).ok())?;
        }
        None => println!(rt; "nothing")?,
    }
    Ok(())
}

/// Prints the number of components of a size, as each type of numbers, and its name in GLSL.
fn show_size(rt: &impl Print, name: &str) -> Result<()> {
    match VectorSize::from_name(name) {
        Some(size) => {
            let (number, wide) = (u8::from(size), u32::from(size));
            println!(rt; "{number}, {wide}, {:?}", GlslVectorSize::from(size))?;
        }
        None => println!(rt; "nothing")?,
    }
    Ok(())
}

/// Prints the component with an index, and its index.
fn show_component(rt: &impl Print, text: &str) -> Result<()> {
    match text.parse::<u32>() {
        Ok(index) => {
            let component = SwizzleComponent::from_index(index);
            println!(rt; "{component:?}, {}", component.index())?;
        }
        Err(_) => println!(rt; "nothing")?,
    }
    Ok(())
}
