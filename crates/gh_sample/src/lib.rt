//! A program of any size from 1 to 40, over which the number of needed cases of one generic function grows evenly.
#![tactic(auto)]

ghost use Rattle.std.specs.Prelude.{◌≡◌, ◌++◌, ◌≤◌, [], ◌∷◌, codes, map, IfOk, OnOk};
ghost use Rattle.std.specs.Fmt.{decimal};
ghost use Rattle.gh_sample.specs.Sample.{ended, filled, head_lines, pair_lines, sample_lines, joined, named, numbers, type_line, value_line};

use gh_base::{Bytes, ListOf, NoMemory};
use std::alloc::Global;

const HEAD: &[u8] = b"module Main where
total{|a|} :: (total{|a|}) => a -> Int
total{|Unit|} u = 0
total{|Int|} n = n
total{|Sum a b|} (Inl x) = total{|a|} x
total{|Sum a b|} (Inr y) = total{|b|} y
total{|Prod a b|} (x :*: y) = total{|a|} x + total{|b|} y
";

// `#` stands for the number of the type.
const TYPE: &[u8] = b"data T# f a = L# a | N# (f a) (T# f (a, a))";

const VALUE: &[u8] = b"v# = total{|T# [] Int|} (N# [#] (L# (1, 2)))";

const MAIN: &[u8] = b"main = showInt (";

/// The sample program with `n` types, as bytes: one nested datatype `T1` to `Tn` of the kind `(* -> *) -> * -> *` for each
/// number, with a value `v1` to `vn` that a generic function `total` gives at it, and a `main` that shows their sum. Each
/// line is ended by a line feed. The value at a type numbered `i` is `i + 3`, so the program prints `n (n + 1) / 2 + 3 n`.
///
/// The types are nested as in Hinze, "Polytypic values possess polykinded types"; the syntax of generic functions is
/// that of Löh, "Exploring Generic Haskell".
pub fn sample(alloc: Global, n: u32) -> Result<Bytes, NoMemory>
    requires least { 1 ≤ n }
    requires most { n ≤ 40 }
    ensures { IfOk result (λ text. text ≡ ended (sample_lines n)) }
{
    let mut text = ListOf::new(alloc);
    text.extend_from_slice(HEAD)?;
    for i in 0..n {
        put_pair(alloc, &mut text, i + 1)?;
    }
    text.extend_from_slice(MAIN)?;
    put_sum(alloc, &mut text, n)?;
    text.extend_from_slice(b")\n")?;
    Ok(text)
}

// The type and the value of one number.
fn put_pair(alloc: Global, text: &mut Bytes, i: u32) -> Result<(), NoMemory>
    ensures { OnOk result (text.new ≡ text.old ++ ended (pair_lines i)) }
{
    let digits = format!(in alloc; "{i}")?;
    put_line(text, TYPE, digits.as_bytes())?;
    put_line(text, VALUE, digits.as_bytes())?;
    Ok(())
}

// A line with the digits for each `#`, and its line feed.
fn put_line(text: &mut Bytes, line: &[u8], digits: &[u8]) -> Result<(), NoMemory>
    ensures { OnOk result (text.new ≡ text.old ++ (filled digits.now line.now ++ 10 ∷ [])) }
{
    for byte in line {
        if *byte == b'#' {
            text.extend_from_slice(digits)?;
        } else {
            text.push(*byte)?;
        }
    }
    text.push(b'\n')?;
    Ok(())
}

// The names of all values, with ` + ` between them.
fn put_sum(alloc: Global, text: &mut Bytes, n: u32) -> Result<(), NoMemory>
    requires least { 1 ≤ n }
    requires most { n ≤ 40 }
    ensures { OnOk result (text.new ≡ text.old ++ joined (codes " + ") (map named (numbers n))) }
{
    put_name(alloc, text, 1)?;
    for i in 1..n {
        text.extend_from_slice(b" + ")?;
        put_name(alloc, text, i + 1)?;
    }
    Ok(())
}

fn put_name(alloc: Global, text: &mut Bytes, i: u32) -> Result<(), NoMemory>
    ensures { OnOk result (text.new ≡ text.old ++ named i) }
{
    text.push(b'v')?;
    let digits = format!(in alloc; "{i}")?;
    text.extend_from_slice(digits.as_bytes())
}

#[cfg(test)]
mod tests {
    use super::sample;
    use std::test::Fail;

    #[test]
    fn one_type_as_written_out(rt: HostRuntime) -> Result<(), Fail> {
        let text = sample(rt.alloc(), 1)?;
        assert_eq!(rt; text.as_slice().len(), 343);
        assert!(rt;
            text.as_slice().ends_with(
                b"x + total{|b|} y
data T1 f a = L1 a | N1 (f a) (T1 f (a, a))
v1 = total{|T1 [] Int|} (N1 [1] (L1 (1, 2)))
main = showInt (v1)
"
            )
        );
        Ok(())
    }

    #[test]
    fn two_types_as_written_out(rt: HostRuntime) -> Result<(), Fail> {
        let text = sample(rt.alloc(), 2)?;
        assert!(rt;
            text.as_slice().ends_with(
                b"
data T2 f a = L2 a | N2 (f a) (T2 f (a, a))
v2 = total{|T2 [] Int|} (N2 [2] (L2 (1, 2)))
main = showInt (v1 + v2)
"
            )
        );
        Ok(())
    }

    #[test]
    fn forty_types(rt: HostRuntime) -> Result<(), Fail> {
        let text = sample(rt.alloc(), 40)?;
        assert_eq!(rt; text.as_slice().len(), 4319);
        assert!(rt;
            text.as_slice().starts_with(
                b"module Main where\ntotal{|a|} :: (total{|a|}) => a -> Int\n"
            )
        );
        assert!(rt;
            text.as_slice().ends_with(
                b" + v9 + v10 + v11 + v12 + v13 + v14 + v15 + v16 + v17 + v18 + v19 + v20 + v21 + v22 + v23 + v24 + v25 + v26 + v27 + v28 + v29 + v30 + v31 + v32 + v33 + v34 + v35 + v36 + v37 + v38 + v39 + v40)\n"
            )
        );
        Ok(())
    }
}
