//! The cases of template arguments (Itanium C++ ABI 5.1.5): which one the next bytes select.
ghost use Rattle.std.specs.Prelude.{◌≡◌};
ghost use Rattle.itanium_syntax.specs.Args as spec;

/// Whether `<template-args>` follow.
#[derive(Clone, Copy)]
pub enum AttachedCase {
    NoneAttached,
    ArgsAttached,
}

/// Whether one more template argument is next, or the end of `<template-args>`.
#[derive(Clone, Copy)]
pub enum ArgumentListCase {
    EndOfArguments,
    NextArgument,
}

/// The cases of `<template-arg>`.
#[derive(Clone, Copy)]
pub enum ArgumentCase {
    ExpressionArgument,
    PackArgument,
    PrimaryArgument,
    ConstraintArgument,
    TypeArgument,
}

/// Returns whether `<template-args>` are next.
pub fn attached_case(bytes: &[u8]) -> AttachedCase
    ensures case { result ≡ spec.attached_case bytes.now }
{
    match bytes {
        [b'I', ..] => AttachedCase::ArgsAttached,
        _ => AttachedCase::NoneAttached,
    }
}

/// Returns whether one more `<template-arg>` is next, or the `E` after them.
pub fn argument_list_case(bytes: &[u8]) -> ArgumentListCase
    ensures case { result ≡ spec.argument_list_case bytes.now }
{
    match bytes {
        [b'E', ..] => ArgumentListCase::EndOfArguments,
        _ => ArgumentListCase::NextArgument,
    }
}

/// Returns which `<template-arg>` is next.
pub fn argument_case(bytes: &[u8]) -> ArgumentCase
    ensures case { result ≡ spec.argument_case bytes.now }
{
    match bytes {
        [b'X', ..] => ArgumentCase::ExpressionArgument,
        [b'J', ..] => ArgumentCase::PackArgument,
        [b'L', ..] => ArgumentCase::PrimaryArgument,
        [b'Q', ..] => ArgumentCase::ConstraintArgument,
        _ => ArgumentCase::TypeArgument,
    }
}
