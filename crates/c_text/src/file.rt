// Prints the macros, the structs and the functions of a file, part by part, so that a caller puts comments
// between.

ghost use Rattle.std.specs.Prelude.{◌≡◌, ◌++◌, true, map, IfOk, string_bytes};
ghost use Rattle.c_text.specs.TypeText.{left_out};
ghost use Rattle.c_text.specs.FileText.{body_text, function_text, head_text, linkage_text, local_of, macro_text, macros_text, members_text, param_text, param_type, params_text, prototype_text, result_text, signed_macro, struct_text, structs_text, unused_param, unused_params};

use crate::command::{Context, push_separator};
use crate::name::{Name, push_name};
use crate::tree::{Base, CType, Function, Kind, Local, Param, Struct};
use crate::types::{is_empty, push_declared, push_type};
use crate::used::{is_used, used_in};
use std::alloc::{AllocError, Global};

/// What a function or a struct stands under: the prefix of names, the structs, and which of them have no
/// member: those that `empties` finds.
#[derive(Clone, Copy)]
pub struct Naming<'a> {
    pub alloc: Global,
    pub prefix: &'a str,
    pub structs: &'a [Struct],
    pub empty: &'a [bool],
}

/// What `P_signed` is defined as.
const SIGNED: &str =
    "(n) (((n) <= UINT64_C(9223372036854775807)) ? ((int64_t)(n)) : ((INT64_C(0) - ((int64_t)(UINT64_C(18446744073709551615) - (n)))) - INT64_C(1)))\n";

/// Adds the macros that stand before functions: one for numbers, and two by which the text is C99 and C++11.
pub fn push_macros(text: &mut String, prefix: &str) -> Result<(), AllocError>
    ensures { IfOk result (λ _. string_bytes text.new
        ≡ string_bytes text.old ++ macros_text prefix.now) }
{
    push_signed(text, prefix)?;
    text.push_str("#ifdef __cplusplus\n")?;
    push_macro(text, prefix, Name::Of, "T\n")?;
    push_macro(text, prefix, Name::Zeros, "T()\n#else\n")?;
    push_macro(text, prefix, Name::Of, "(struct T)\n")?;
    push_macro(text, prefix, Name::Zeros, "(struct T){0}\n#endif\n")?;
    Ok(())
}

/// Adds the macro by which a `uint64_t` becomes an `int64_t`.
fn push_signed(text: &mut String, prefix: &str) -> Result<(), AllocError>
    ensures { IfOk result (λ _. string_bytes text.new
        ≡ string_bytes text.old ++ signed_macro prefix.now) }
{
    text.push_str("#define ")?;
    push_name(text, prefix, Name::Signed)?;
    text.push_str(SIGNED)?;
    Ok(())
}

/// Adds a macro of T, and what stands behind it.
fn push_macro(text: &mut String, prefix: &str, name: Name, rest: &str) -> Result<(), AllocError>
    ensures { IfOk result (λ _. string_bytes text.new
        ≡ string_bytes text.old ++ macro_text prefix.now name rest.now) }
{
    text.push_str("#define ")?;
    push_name(text, prefix, name)?;
    text.push_str("(T) ")?;
    text.push_str(rest)?;
    Ok(())
}

/// Adds the structs, but for those without members.
pub fn push_structs(text: &mut String, naming: Naming<'_>) -> Result<(), AllocError>
    ensures { IfOk result (λ _. string_bytes text.new ≡ string_bytes text.old
        ++ structs_text naming.entry.prefix.now naming.entry.empty.now 0 naming.entry.structs.now) }
{
    let structs = naming.structs;
    for (k, each) in structs.iter().enumerate() {
        if !is_empty(naming.empty, CType::One(Base::Struct(k))) {
            text.push_str("\n")?;
            push_struct(text, naming, k, each)?;
        }
    }
    Ok(())
}

/// Adds struct k, which has members.
fn push_struct(
    text: &mut String,
    naming: Naming<'_>,
    k: usize,
    each: &Struct,
) -> Result<(), AllocError>
    ensures { IfOk result (λ _. string_bytes text.new ≡ string_bytes text.old
        ++ struct_text naming.entry.prefix.now naming.entry.empty.now k each.now) }
{
    text.push_str("struct ")?;
    push_name(text, naming.prefix, Name::Struct(k))?;
    text.push_str(" {\n")?;
    push_members(text, naming, each.kind, each.members.as_slice())?;
    text.push_str("};\n")?;
    Ok(())
}

/// Adds the members of a struct of a kind.
fn push_members(
    text: &mut String,
    naming: Naming<'_>,
    kind: Kind,
    members: &[CType],
) -> Result<(), AllocError>
    ensures { IfOk result (λ _. string_bytes text.new ≡ string_bytes text.old
        ++ members_text naming.entry.prefix.now naming.entry.empty.now kind 0 members.now) }
{
    for (k, ty) in members.iter().enumerate() {
        if !is_empty(naming.empty, *ty) {
            text.push_str("    ")?;
            push_declared(text, naming.prefix, *ty, Name::Member(kind, k))?;
            text.push_str(";\n")?;
        }
    }
    Ok(())
}

/// Adds a function, under this name; it is the file's own, unless it is one that a program calls.
pub fn push_function(
    text: &mut String,
    naming: Naming<'_>,
    name: Name,
    function: &Function,
) -> Result<(), AllocError>
    ensures { IfOk result (λ _. string_bytes text.new ≡ string_bytes text.old
        ++ function_text naming.entry.prefix.now naming.entry.empty.now naming.entry.structs.now
        name function.now) }
{
    push_head(text, naming, name, function)?;
    push_body(text, naming, function)
}

/// Adds the type of a result.
fn push_result(text: &mut String, naming: Naming<'_>, ty: CType) -> Result<(), AllocError>
    ensures { IfOk result (λ _. string_bytes text.new ≡ string_bytes text.old
        ++ result_text naming.entry.prefix.now naming.entry.empty.now ty) }
{
    if is_empty(naming.empty, ty) {
        text.push_str("void")?;
    } else {
        push_type(text, naming.prefix, ty)?;
    }
    Ok(())
}

/// What stands before a function of this name.
fn linkage(name: Name) -> &'static str
    ensures { result.now ≡ linkage_text name }
{
    match name {
        Name::Function(_) => "static ",
        Name::Init | Name::Step => "",
        Name::Local(_) | Name::Member(..) | Name::Struct(_) => "",
        Name::Of | Name::Zeros | Name::Signed => "",
    }
}

/// Adds what stands before a function's body.
fn push_head(
    text: &mut String,
    naming: Naming<'_>,
    name: Name,
    function: &Function,
) -> Result<(), AllocError>
    ensures { IfOk result (λ _. string_bytes text.new ≡ string_bytes text.old
        ++ head_text naming.entry.prefix.now naming.entry.empty.now name function.now) }
{
    text.push_str(linkage(name))?;
    push_prototype(text, naming, name, function)?;
    text.push_str("\n")?;
    Ok(())
}

/// Adds what a function is called by: its result's type, its name and its parameters.
fn push_prototype(
    text: &mut String,
    naming: Naming<'_>,
    name: Name,
    function: &Function,
) -> Result<(), AllocError>
    ensures { IfOk result (λ _. string_bytes text.new ≡ string_bytes text.old
        ++ prototype_text naming.entry.prefix.now naming.entry.empty.now name function.now) }
{
    push_result(text, naming, function.result)?;
    text.push_str(" ")?;
    push_name(text, naming.prefix, name)?;
    text.push_str("(")?;
    push_params(text, naming, function.params.as_slice())?;
    text.push_str(")")?;
    Ok(())
}

/// The type of what is passed.
fn param_type(param: Param) -> CType
    ensures { result ≡ param_type param }
{
    match param {
        Param::Value(ty) | Param::Const(ty) | Param::Pointer(ty) => ty,
    }
}

/// The local that a parameter is.
fn local_of(param: Param) -> Local
    ensures { result ≡ local_of param }
{
    match param {
        Param::Value(ty) => Local { ty, pointer: false },
        Param::Const(ty) | Param::Pointer(ty) => Local { ty, pointer: true },
    }
}

/// Adds parameter k.
fn push_param(text: &mut String, prefix: &str, k: usize, param: Param) -> Result<(), AllocError>
    ensures { IfOk result (λ _. string_bytes text.new
        ≡ string_bytes text.old ++ param_text prefix.now k param) }
{
    match param {
        Param::Value(ty) => push_declared(text, prefix, ty, Name::Local(k))?,
        Param::Const(ty) => {
            text.push_str("const ")?;
            push_type(text, prefix, ty)?;
            text.push_str(" *")?;
            push_name(text, prefix, Name::Local(k))?;
        }
        Param::Pointer(ty) => {
            push_type(text, prefix, ty)?;
            text.push_str(" *")?;
            push_name(text, prefix, Name::Local(k))?;
        }
    }
    Ok(())
}

/// Adds the parameters.
fn push_params(text: &mut String, naming: Naming<'_>, params: &[Param]) -> Result<(), AllocError>
    ensures { IfOk result (λ _. string_bytes text.new ≡ string_bytes text.old
        ++ params_text naming.entry.prefix.now naming.entry.empty.now true 0 params.now) }
{
    let mut first = true;
    for (k, param) in params.iter().enumerate() {
        if !is_empty(naming.empty, param_type(*param)) {
            push_separator(text, first)?;
            push_param(text, naming.prefix, k, *param)?;
            first = false;
        }
    }
    if first {
        text.push_str("void")?;
    }
    Ok(())
}

/// Adds a line for each parameter that isn't used.
fn push_unused_params(
    text: &mut String,
    naming: Naming<'_>,
    used: &[bool],
    params: &[Param],
) -> Result<(), AllocError>
    ensures { IfOk result (λ _. string_bytes text.new ≡ string_bytes text.old
        ++ unused_params naming.entry.prefix.now naming.entry.empty.now used.now 0 params.now) }
{
    for (k, param) in params.iter().enumerate() {
        if !is_empty(naming.empty, param_type(*param)) {
            push_unused_param(text, naming.prefix, used, k)?;
        }
    }
    Ok(())
}

/// Adds a line for parameter k, if it isn't used.
fn push_unused_param(
    text: &mut String,
    prefix: &str,
    used: &[bool],
    k: usize,
) -> Result<(), AllocError>
    ensures { IfOk result (λ _. string_bytes text.new
        ≡ string_bytes text.old ++ unused_param prefix.now used.now k) }
{
    if !is_used(used, k) {
        text.push_str("    (void)")?;
        push_name(text, prefix, Name::Local(k))?;
        text.push_str(";\n")?;
    }
    Ok(())
}

/// The locals that a function begins with.
fn locals_of(alloc: Global, params: &[Param]) -> Result<Vec<Local>, AllocError>
    ensures { IfOk result (λ locals. locals.items ≡ map local_of params.now) }
{
    let mut locals = Vec::with_capacity(alloc, params.len())?;
    for param in params {
        locals.push(local_of(*param))?;
    }
    Ok(locals)
}

/// Adds a function's body.
fn push_body(text: &mut String, naming: Naming<'_>, function: &Function) -> Result<(), AllocError>
    ensures { IfOk result (λ _. string_bytes text.new ≡ string_bytes text.old
        ++ body_text naming.entry.prefix.now naming.entry.empty.now naming.entry.structs.now
        function.now) }
{
    let locals = locals_of(naming.alloc, function.params.as_slice())?;
    let used = used_in(naming.alloc, &function.body)?;
    let context = Context {
        alloc: naming.alloc,
        prefix: naming.prefix,
        structs: naming.structs,
        empty: naming.empty,
        result: function.result,
        used: used.as_slice(),
        margin: "    ",
        locals: locals.as_slice(),
    };
    text.push_str("{\n")?;
    push_unused_params(text, naming, used.as_slice(), function.params.as_slice())?;
    context.push_command(text, &function.body)?;
    text.push_str("}\n")?;
    Ok(())
}
