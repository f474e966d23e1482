//! Laws of codecs: a value that fits is read as it was written, and what is read fits.
ghost use Rattle.std.specs.Prelude.{◌≡◌, ◌^◌, ◌≤◌, ℕ, Some};
ghost use Rattle.json.specs.Json.{Json};
ghost use Rattle.json.specs.Print.{print};
ghost use Rattle.json.specs.Tree.{depth, json_tokens};
ghost use Rattle.naga_json.specs.Codec.{boolean_codec, handle_codec, integer_codec, natural_codec, nonzero_codec, text_codec};
ghost use Rattle.naga_json.specs.derived.Kinds.{binary_operator_codec, collective_operation_codec, conservative_depth_codec, cooperative_role_codec, cooperative_size_codec, derivative_axis_codec, derivative_control_codec, direction_codec, image_dimension_codec, interpolation_codec, math_function_codec, mesh_output_topology_codec, relational_function_codec, sampling_codec, scalar_kind_codec, severity_codec, shader_stage_codec, standard_filterable_triggering_rule_codec, storage_format_codec, subgroup_operation_codec, swizzle_component_codec, unary_operator_codec, vector_size_codec};
ghost use Rattle.naga_json.specs.Lawful.{Lawful};
ghost use Rattle.naga_json.specs.Form.{LawfulForm};
ghost use Rattle.naga_json.specs.derived.AddressSpace.{address_space_codec};
ghost use Rattle.naga_json.specs.derived.Builtin.{built_in_codec};
ghost use Rattle.naga_json.specs.derived.Binding.{binding_codec, resource_binding_codec};
ghost use Rattle.naga_json.specs.Block.{statement_codec, block_codec};
ghost use Rattle.naga_json.specs.derived.Module.{constant_codec, override_codec, global_variable_codec};
ghost use Rattle.naga_json.specs.DiagnosticFilter.{rule_codec, filter_codec, node_codec};
ghost use Rattle.naga_json.specs.DocComments.{doc_comments_codec};
ghost use Rattle.naga_json.specs.derived.EntryPoint.{early_depth_test_codec};
ghost use Rattle.naga_json.specs.derived.Module.{mesh_stage_info_codec};
ghost use Rattle.naga_json.specs.EntryPoint.{entry_point_form};
ghost use Rattle.naga_json.specs.derived.Expression.{sample_level_codec, image_query_codec, cooperative_data_codec, expression_form};
ghost use Rattle.naga_json.specs.FlagSets.{storage_access_codec, memory_decorations_codec, barrier_codec};
ghost use Rattle.naga_json.specs.derived.Module.{function_argument_codec, function_result_codec, local_variable_codec};
ghost use Rattle.naga_json.specs.Function.{names_codec, function_form};
ghost use Rattle.naga_json.specs.derived.Image.{image_class_codec};
ghost use Rattle.naga_json.specs.derived.Literal.{literal_form};
ghost use Rattle.naga_json.specs.Module.{ModuleValue, module_form, module_in_text};
ghost use Rattle.naga_json.specs.derived.Scalar.{scalar_codec};
ghost use Rattle.naga_json.specs.SpecialTypes.{special_types_codec};
ghost use Rattle.naga_json.specs.Unspanned.{unspanned_module};
ghost use Rattle.naga_json.specs.derived.Expression.{atomic_function_codec, gather_mode_codec};
ghost use Rattle.naga_json.specs.derived.Statement.{ray_query_function_codec, ray_pipeline_function_codec};
ghost use Rattle.naga_json.specs.Range.{range_codec};
ghost use Rattle.naga_json.specs.derived.Switch.{switch_value_codec};
ghost use Rattle.naga_json.specs.declared.nesting.TheConstants.{MAX_NESTING};
ghost use Rattle.naga_json.specs.derived.Types.{array_size_codec, struct_member_codec, type_inner_codec};
ghost use Rattle.naga_json.specs.Types.{type_codec};

/// Lists, objects and blocks are nested at most 127 deep, as serde_json reads them.
pub fn nesting_is_at_most_127()
    ensures { MAX_NESTING ≡ 127 }
{}

/// Numbers, booleans and texts are read as they were written.
#[tactic(auto, using(crate::proofs::CodecLemmas::value_laws))]
pub fn plain_values_are_read_as_written()
    ensures natural { (bound : ℕ) → bound ≤ 2 ^ 64 → Lawful (natural_codec bound) }
    ensures handle { Lawful handle_codec }
    ensures nonzero { Lawful nonzero_codec }
    ensures integer { (bits : ℕ) → 2 ^ bits ≤ 2 ^ 63 → Lawful (integer_codec bits) }
    ensures boolean { Lawful boolean_codec }
    ensures text { Lawful text_codec }
{}

/// Kinds without data are read as they were written.
#[tactic(auto, using(crate::proofs::derived::KindsLemmas::kind_laws))]
pub fn kinds_are_read_as_written()
    ensures scalar_kind { Lawful scalar_kind_codec }
    ensures vector_size { Lawful vector_size_codec }
    ensures cooperative_size { Lawful cooperative_size_codec }
    ensures cooperative_role { Lawful cooperative_role_codec }
    ensures unary_operator { Lawful unary_operator_codec }
    ensures binary_operator { Lawful binary_operator_codec }
    ensures derivative_control { Lawful derivative_control_codec }
    ensures derivative_axis { Lawful derivative_axis_codec }
    ensures relational_function { Lawful relational_function_codec }
    ensures swizzle_component { Lawful swizzle_component_codec }
    ensures math_function { Lawful math_function_codec }
    ensures storage_format { Lawful storage_format_codec }
    ensures image_dimension { Lawful image_dimension_codec }
    ensures interpolation { Lawful interpolation_codec }
    ensures sampling { Lawful sampling_codec }
    ensures shader_stage { Lawful shader_stage_codec }
    ensures conservative_depth { Lawful conservative_depth_codec }
    ensures mesh_output_topology { Lawful mesh_output_topology_codec }
    ensures direction { Lawful direction_codec }
    ensures subgroup_operation { Lawful subgroup_operation_codec }
    ensures collective_operation { Lawful collective_operation_codec }
    ensures severity { Lawful severity_codec }
    ensures standard_filterable_triggering_rule { Lawful standard_filterable_triggering_rule_codec }
{}

/// Scalars, sets of flags, address spaces, classes of images and bindings are read as they were written.
#[tactic(auto, using(crate::proofs::LawfulLemmas::parts_of_types))]
pub fn parts_of_types_are_read_as_written()
    ensures scalar { Lawful scalar_codec }
    ensures storage_access { Lawful storage_access_codec }
    ensures memory_decorations { Lawful memory_decorations_codec }
    ensures barrier { Lawful barrier_codec }
    ensures address_space { Lawful address_space_codec }
    ensures image_class { Lawful image_class_codec }
    ensures built_in { Lawful built_in_codec }
    ensures binding { Lawful binding_codec }
    ensures resource_binding { Lawful resource_binding_codec }
{}

/// Types are read as they were written, without the spare capacity of their names and members.
#[tactic(auto, using(crate::proofs::LawfulLemmas::types))]
pub fn types_are_read_as_written()
    ensures array_size { Lawful array_size_codec }
    ensures struct_member { Lawful struct_member_codec }
    ensures type_inner { Lawful type_inner_codec }
    ensures named { Lawful type_codec }
{}

/// Diagnostic filters are read as they were written.
#[tactic(auto, using(crate::proofs::LawfulLemmas::diagnostic_filters))]
pub fn diagnostic_filters_are_read_as_written()
    ensures rule { Lawful rule_codec }
    ensures filter { Lawful filter_codec }
    ensures node { Lawful node_codec }
{}

/// The values of cases of switches, and modes of the early depth test, are read as they were written.
#[tactic(auto, using(crate::proofs::LawfulLemmas::cases_and_tests))]
pub fn cases_and_tests_are_read_as_written()
    ensures switch_value { Lawful switch_value_codec }
    ensures early_depth_test { Lawful early_depth_test_codec }
{}

/// Expressions are read as they were written, without the spare capacity of their lists. A finite float has several
/// JSONs, and each of them is read as the float.
#[tactic(auto, using(crate::proofs::LawfulLemmas::expressions))]
pub fn expressions_are_read_as_written()
    ensures literal { LawfulForm literal_form }
    ensures sample_level { Lawful sample_level_codec }
    ensures image_query { Lawful image_query_codec }
    ensures cooperative_data { Lawful cooperative_data_codec }
    ensures expression { LawfulForm expression_form }
{}

/// Statements that contain no block, and the parts of statements, are read as they were written.
#[tactic(auto, using(crate::proofs::LawfulLemmas::statements))]
pub fn statements_are_read_as_written()
    ensures atomic_function { Lawful atomic_function_codec }
    ensures gather_mode { Lawful gather_mode_codec }
    ensures ray_query_function { Lawful ray_query_function_codec }
    ensures ray_pipeline_function { Lawful ray_pipeline_function_codec }
    ensures range { Lawful range_codec }
{}

/// Blocks with undefined spans are read as they were written, without the spare capacity of their lists, if blocks are
/// nested at most 127 deep in them. So are statements.
#[tactic(auto, using(crate::proofs::LawfulLemmas::blocks))]
pub fn blocks_are_read_as_written()
    ensures statement { Lawful (statement_codec block_codec) }
    ensures block { Lawful block_codec }
{}

/// Constants, overrides, global variables, special types and doc comments are read as they were written, without spare
/// capacity.
#[tactic(auto, using(crate::proofs::LawfulLemmas::declarations))]
pub fn declarations_are_read_as_written()
    ensures constant { Lawful constant_codec }
    ensures override_value { Lawful override_codec }
    ensures global_variable { Lawful global_variable_codec }
    ensures special_types { Lawful special_types_codec }
    ensures doc_comments { Lawful doc_comments_codec }
{}

/// Functions and entry points with undefined spans are read as they were written, without spare capacity.
#[tactic(auto, using(crate::proofs::LawfulLemmas::functions))]
pub fn functions_are_read_as_written()
    ensures argument { Lawful function_argument_codec }
    ensures function_result { Lawful function_result_codec }
    ensures local_variable { Lawful local_variable_codec }
    ensures names { Lawful names_codec }
    ensures function { LawfulForm function_form }
    ensures mesh_stage_info { Lawful mesh_stage_info_codec }
    ensures entry_point { LawfulForm entry_point_form }
{}

/// Modules with undefined spans are read as they were written, without spare capacity: each JSON that is written for a
/// module that fits is read as the module, and each module that is read fits.
#[tactic(auto, using(crate::proofs::LawfulLemmas::modules))]
pub fn modules_are_read_as_written()
    ensures whole { LawfulForm module_form }
{}

/// Spans are not written: what is written for a module is written for this module with undefined spans.
pub fn spans_are_not_written()
    ensures { (whole : ModuleValue) (j : Json)
        → module_form.Writes whole j → module_form.Writes (unspanned_module whole) j }
{}

/// The text that is written for a module is read as this module, with undefined spans and without spare capacity, if
/// the module fits, and if the lists and objects of the text are nested at most 127 deep.
pub fn text_of_a_module_is_read_as_the_module()
    ensures { (whole : ModuleValue) (j : Json) → module_form.Fits (unspanned_module whole) → module_form.Writes whole j
        → depth j ≤ MAX_NESTING
        → module_in_text (print (json_tokens j)) ≡ Some (unspanned_module whole) }
{}
