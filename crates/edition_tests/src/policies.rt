//! Policies' texts, and the places of their faults.

use frame_records::Groups;
use policy_text::{PolicyFault, PolicyField, fault_span, policy_read, widest_text};
use std::test::Fail;
use test_support::{same, same_in};

// A text, its first fault, and the piece of the text that is at fault.
const REFUSED: [(&str, PolicyFault, &str); 17] = [
    (
        "ceiling = 5\n",
        PolicyFault::Absent(PolicyField::Keyings),
        "",
    ),
    (
        "keyings = 5\n",
        PolicyFault::Absent(PolicyField::Ceiling),
        "",
    ),
    (
        "ceiling = 5\nkeyings = 1\nceilings = 2\n",
        PolicyFault::UnknownKey,
        "ceilings",
    ),
    (
        "ceiling = 10000\nkeyings = 1\n",
        PolicyFault::Range(PolicyField::Ceiling),
        "10000",
    ),
    (
        "ceiling = -1\nkeyings = 1\n",
        PolicyFault::Range(PolicyField::Ceiling),
        "-1",
    ),
    (
        "ceiling = 5\nkeyings = 65536\n",
        PolicyFault::Range(PolicyField::Keyings),
        "65536",
    ),
    (
        "ceiling = '5'\nkeyings = 1\n",
        PolicyFault::WrongKind(PolicyField::Ceiling),
        "'5'",
    ),
    (
        "ceiling = 5\nkeyings = 1.5\n",
        PolicyFault::WrongKind(PolicyField::Keyings),
        "1.5",
    ),
    (
        "ceiling = 5\nkeyings = 1\ngroups = 7\n",
        PolicyFault::WrongKind(PolicyField::Groups),
        "7",
    ),
    (
        "ceiling = 5\nkeyings = 1\ngroups = [7, true]\n",
        PolicyFault::WrongItem(2),
        "true",
    ),
    (
        "ceiling = 5\nkeyings = 1\ngroups = [0]\n",
        PolicyFault::ItemRange(1),
        "0",
    ),
    (
        "ceiling = 5\nkeyings = 1\ngroups = [1, 65536]\n",
        PolicyFault::ItemRange(2),
        "65536",
    ),
    (
        "ceiling = 5\nkeyings = 1\ngroups = [7, 9, 9]\n",
        PolicyFault::Order(3),
        "9",
    ),
    (
        "ceiling = 5\nkeyings = 1\ngroups = [1,2,3,4,5,6,7,8,9,10,11,12,13,14,15,16,17]\n",
        PolicyFault::TooManyGroups,
        "[1,2,3,4,5,6,7,8,9,10,11,12,13,14,15,16,17]",
    ),
    (
        "ceiling = 5\nkeyings = 1\ngroups = [1,2,3,4,5,6,7,8,9,10,11,12,13,14,15,16,0]\n",
        PolicyFault::ItemRange(17),
        "0",
    ),
    (
        "ceiling = 5\r\n'keyings' = 1\r\n\"x\" = 2\r\n",
        PolicyFault::UnknownKey,
        "\"x\"",
    ),
    (
        "\u{FEFF}ceiling = 5\nkeyings = 1\nx.y = 2\n",
        PolicyFault::UnknownKey,
        "x",
    ),
];

#[test]
fn each_fault_is_named_with_its_place(rt: HostRuntime) -> Result<(), Fail> {
    for (text, fault, piece) in REFUSED {
        same_in(
            text,
            policy_read(rt.alloc(), text.as_bytes()).err(),
            Some(fault),
        )?;
        let span = fault_span(rt.alloc(), text.as_bytes(), fault)?;
        same_in(text, text.get(span.begin..span.end), Some(piece))?;
    }
    Ok(())
}

#[test]
fn what_is_no_toml_is_refused(rt: HostRuntime) -> Result<(), Fail> {
    let fault = policy_read(rt.alloc(), b"ceiling = 5\nkeyings =\n").err();
    same(fault, Some(PolicyFault::NotToml))?;
    let fault = policy_read(rt.alloc(), b"\xFF\xFE").err();
    same(fault, Some(PolicyFault::NotToml))
}

#[test]
fn a_long_text_is_not_parsed(rt: HostRuntime) -> Result<(), Fail> {
    let text = [b'#'; 65_537];
    let fault = policy_read(rt.alloc(), &text).err();
    same(fault, Some(PolicyFault::TooLong))
}

#[test]
fn limits_and_groups_are_read(rt: HostRuntime) -> Result<(), Fail> {
    let text = b"groups = [7, 9]  # a club\nkeyings = 3\nceiling = 50\n";
    let policy = policy_read(rt.alloc(), text)?;
    same(
        (policy.ceiling.get(), policy.keyings, policy.groups.len()),
        (50, 3, 2),
    )?;
    same(policy.groups.are_same(&Groups::read("7,9")?), true)
}

#[test]
fn the_widest_policy_is_read(rt: HostRuntime) -> Result<(), Fail> {
    let text = widest_text(rt.alloc())?;
    let policy = policy_read(rt.alloc(), text.as_slice())?;
    same(
        (policy.ceiling.get(), policy.keyings, policy.groups.len()),
        (9_999, 65_535, 0),
    )
}
