// Worked rows of the index of names: texts that are one, that share a hash, and that are none.
use crate::same::same;
use dcr_graph::NameIndex;
use std::test::Fail;

// Three texts of 48 bytes whose hashes are one, and five others, of which one stands twice.
const TEXTS: [&str; 8] = [
    "hxq6bmGRTRZv8cQJVri9Sp_LA.L5iow1xZ3QVTGSX6m4nuAe",
    "hxq6bmGRTRZv8cQJVri9Sp_LA0PpSXztxZ3QVTGSX6m4nuAe",
    "hxq6bmGRTRZv8cQJVri9Sp_LA3A3VTu-xZ3QVTGSX6m4nuAe",
    "pm",
    "gm",
    "pm",
    "",
    "p",
];

#[test]
fn a_text_has_the_number_of_the_first_that_is_it(rt: HostRuntime) -> Result<(), Fail> {
    let alloc = rt.alloc();
    let mut texts = Vec::new(alloc);
    for text in TEXTS {
        texts.push(text.as_bytes())?;
    }
    let index = NameIndex::new(alloc, texts)?;
    let none = NameIndex::new(alloc, Vec::new(alloc))?;
    same(&rt, &(index.len(), none.len()), &(8, 0), "how many");
    for (text, number) in [
        (TEXTS[0], Some(0)),
        (TEXTS[1], Some(1)),
        (TEXTS[2], Some(2)),
        ("pm", Some(3)),
        ("gm", Some(4)),
        ("", Some(6)),
        ("p", Some(7)),
        ("g", None),
        ("pmm", None),
    ] {
        same(&rt, &index.find(text.as_bytes()), &number, text);
        same(&rt, &none.find(text.as_bytes()), &None, text);
    }
    Ok(())
}
