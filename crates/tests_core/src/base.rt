// One call of each public function, with ample memory.
use gh_base::fixed::{FIXED, MAIN, WHERE};
use gh_base::{
    Bytes, ListOf, NameId, Names, NoMemory, Origin, Refusal, Space, Span, TyCon,
    constants_name_their_words,
};
use std::process::Abort;
use std::test::Fail;

// A new list grows at its end.
fn check_growth(rt: &impl Abort, list: &mut ListOf<u32>) -> Result<(), NoMemory> {
    assert!(rt; list.as_slice().is_empty());
    list.push(7)?;
    list.push(9)?;
    list.extend_from_slice(&[1, 2])?;
    assert!(rt; list.as_slice() == [7, 9, 1, 2].as_slice());
    Ok(())
}

#[test]
fn a_list_keeps_its_items_in_order(rt: HostRuntime) -> Result<(), Fail> {
    check_growth(&rt, &mut ListOf::new(rt.alloc()))?;
    let copy: Bytes = ListOf::from_slice(rt.alloc(), b"abc")?;
    assert_eq!(rt; copy.as_slice(), b"abc".as_slice());
    Ok(())
}

// Whether a text has this number.
fn has_number(names: &mut Names, text: &[u8], wanted: NameId) -> Result<bool, NoMemory> {
    let number = names.intern(text)?;
    Ok(number == wanted)
}

// A new table knows the fixed texts, and gives each new text the next number.
fn numbers_in_turn(names: &mut Names) -> Result<bool, NoMemory> {
    let tree = NameId(FIXED.len() as u32);
    Ok(
        has_number(names, b"where", WHERE)?
            && has_number(names, b"main", MAIN)?
            && has_number(names, b"tree", tree)?
            && !has_number(names, b"leaf", tree)?
            && has_number(names, b"tree", tree)?,
    )
}

#[test]
fn one_text_has_one_number(rt: HostRuntime) -> Result<(), Fail> {
    let mut names = Names::new(rt.alloc())?;
    assert!(rt; numbers_in_turn(&mut names)?);
    Ok(())
}

#[test]
fn a_number_gives_its_text(rt: HostRuntime) -> Result<(), Fail> {
    let mut names = Names::new(rt.alloc())?;
    let tree = names.intern(b"tree")?;
    names.begins_with_fixed();
    constants_name_their_words();
    assert_eq!(rt; names.text(tree), b"tree".as_slice());
    Ok(())
}

// The number and the place of a refusal.
fn seen(refusal: Refusal) -> (u32, Option<Span>) {
    (refusal.number(), refusal.span())
}

#[test]
fn refusals_have_their_numbers_and_places(rt: HostRuntime) -> Result<(), Fail> {
    let span = Span {
        file: 1,
        from: 4,
        to: 9,
    };
    let unknown = Refusal::UnknownName { span, name: MAIN };
    assert_eq!(rt; seen(unknown), (16, Some(span)));
    assert_eq!(rt; seen(Refusal::NoMain), (38, None));
    let origin = Origin {
        module: MAIN,
        space: Space::Types,
        name: WHERE,
    };
    let mut chain = ListOf::new(rt.alloc());
    chain.push((origin, TyCon::ConOf(origin)))?;
    assert_eq!(rt; seen(Refusal::NoCase { span, chain }), (34, Some(span)));
    Ok(())
}
