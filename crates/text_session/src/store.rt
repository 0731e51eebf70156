// What a run stores, lent for its time: the columns, of as many slots as a plan may ask for, and the newest moment. It has the fields of
// `table_gcra::Table`, and holds none, since a call of the run takes a part of each (`part`). That a function leaves the same columns
// lent (`SameLoan`) is a fact of two values of it, which no type can say.
ghost use Rattle.std.specs.Prelude.{◌≤◌, length};
ghost use Rattle.text_session.specs.Session.{text_slots};

#[derive(Drop)]
pub struct Store<'a> {
    pub ids: &'a mut [u32],
    pub numbers: &'a mut [u8],
    pub tats: &'a mut [u64],
    pub newest: &'a mut u64,
    pub ghost in_ids: { text_slots ≤ length ids.now },
    pub ghost in_numbers: { text_slots ≤ length numbers.now },
    pub ghost in_tats: { text_slots ≤ length tats.now },
}
