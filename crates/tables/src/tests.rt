use crate::lookup::{Named, find};
use crate::name::Name;
use crate::rows::Rows;
use std::test::Fail;

// A record of the tests: its name and nothing else.
#[derive(Clone, Copy)]
struct Entry {
    name: Name,
}

impl Named for Entry {
    ghost name = { λ e. e.name.letters };

    fn name(&self) -> Name {
        self.name
    }
}

fn named(letters: &[u8; 8]) -> Entry {
    Entry {
        name: Name { letters: *letters },
    }
}

#[test]
fn the_first_of_equal_names_is_found(rt: HostRuntime) {
    let entries = [named(b"reg.put "), named(b"reg.look"), named(b"reg.look")];
    assert_eq!(rt;
        find(
            &entries,
            &Name {
                letters: *b"reg.look",
            },
        ),
        Some(1)
    );
    assert_eq!(rt;
        find(
            &entries,
            &Name {
                letters: *b"reg.loop",
            },
        ),
        None
    );
}

#[test]
fn a_full_table_takes_no_row(rt: HostRuntime) {
    let mut rows: Rows<u8, 2> = Rows::new(0);
    assert!(rt; rows.last().is_none());
    assert!(rt; rows.push(7));
    assert!(rt; rows.push(8));
    assert!(rt; !rows.push(9));
    assert!(rt; rows.is_full());
    assert_eq!(rt; rows.held(), &[7, 8][..]);
    if let Some(last) = rows.last_mut() {
        *last = 5;
    }
    assert_eq!(rt; rows.held(), &[7, 5][..]);
}

#[test]
fn a_name_is_shown_without_its_last_spaces(rt: HostRuntime) -> Result<(), Fail> {
    let ping = Name {
        letters: *b" p ng   ",
    };
    assert!(rt; ping.is_proper());
    assert!(rt;
        !Name {
            letters: *b"ping\n   ",
        }
        .is_proper()
    );
    assert_eq!(rt; format!(in rt.alloc(); "{ping}")?.as_str(), " p ng");
    Ok(())
}
