// The list: fifteen sheets, and the bytes of their names in UTF-8.
ghost use Rattle.std.specs.Prelude.{◌≡◌, option_map};
ghost use Rattle.official.specs.Lookup.{name_of};
ghost use Rattle.official.specs.Given.{AreOfficial};

// A sheet, and the bytes of its name.
#[derive(Clone, Copy)]
pub(crate) struct Entry {
    pub sheet: u32,
    pub name: &'static [u8],
}

const OFFICIAL: [Entry; 15] = [
    Entry {
        sheet: 1,
        name: b"Zagreb",
    },
    Entry {
        sheet: 2,
        name: b"Bjelovar",
    },
    Entry {
        sheet: 3,
        name: b"Beli Manastir",
    },
    Entry {
        sheet: 4,
        name: b"Rijeka",
    },
    Entry {
        sheet: 5,
        name: b"Karlovac",
    },
    Entry {
        sheet: 6,
        name: b"Slavonski Brod",
    },
    Entry {
        sheet: 7,
        name: b"Osijek",
    },
    Entry {
        sheet: 8,
        name: b"Otok Lo\xC5\xA1inj",
    },
    Entry {
        sheet: 9,
        name: b"Zadar",
    },
    Entry {
        sheet: 10,
        name: b"Jan\xC4\x8Dag",
    },
    Entry {
        sheet: 13,
        name: b"Split",
    },
    Entry {
        sheet: 14,
        name: b"Makarska",
    },
    Entry {
        sheet: 17,
        name: b"Vis",
    },
    Entry {
        sheet: 18,
        name: b"Dubrovnik",
    },
    Entry {
        sheet: 19,
        name: b"Prevlaka",
    },
];

pub(crate) fn entries() -> [Entry; 15]
    ensures { AreOfficial result }
{
    OFFICIAL
}

// The name of a sheet, if it is listed. The list is gone through as the definition (`find`) does: it has fifteen rows, and `find` of an iterator is
// told by what its closure answers, which is no shorter here.
pub(crate) fn name_of(sheet: u32) -> Option<&'static [u8]>
    ensures { option_map (λ name. name.now) result ≡ name_of sheet }
{
    for &entry in &entries() {
        if entry.sheet == sheet {
            return Some(entry.name);
        }
    }
    None
}
