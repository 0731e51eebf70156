// The cases: each limit of document 01, at it and one beyond, and each number of an answer.
use crate::reckon;
use rate::answer::Reason;

pub fn plans(rt: &impl Print) {
    reckon::plan(rt, 0, 1000, 2);
    reckon::plan(rt, 1, 1000, 2);
    reckon::plan(rt, 1_000_000, 1000, 2);
    reckon::plan(rt, 1_000_001, 1000, 2);
    reckon::plan(rt, 4_294_967_295, 1000, 2);
    reckon::plan(rt, 3, 0, 2);
    reckon::plan(rt, 3, 1, 2);
    reckon::plan(rt, 3, 2_678_400_000, 2);
    reckon::plan(rt, 3, 2_678_400_001, 2);
    reckon::plan(rt, 3, 4_294_967_295, 2);
    reckon::plan(rt, 3, 1000, 0);
    reckon::plan(rt, 3, 1000, 1);
    reckon::plan(rt, 3, 1000, 1_000_000);
    reckon::plan(rt, 3, 1000, 1_000_001);
    reckon::plan(rt, 3, 1000, 4_294_967_295);
}

pub fn moments(rt: &impl Print) {
    reckon::moment(rt, 0);
    reckon::moment(rt, 4_398_046_511_103);
    reckon::moment(rt, 4_398_046_511_104);
    reckon::moment(rt, 18_446_744_073_709_551_615);
}

// Each cause of a refusal, with the largest subscriber, and both answers of a clear.
pub fn answers(rt: &impl Print) {
    let shop = 4_294_967_295;
    reckon::refused(rt, 0, Reason::BadPlan, shop);
    reckon::refused(rt, 1, Reason::BadTable, shop);
    reckon::refused(rt, 2, Reason::LateMoment, shop);
    reckon::refused(rt, 3, Reason::EarlyMoment, shop);
    reckon::refused(rt, 4, Reason::NoSubscriber, 0);
    reckon::refused(rt, 5, Reason::ZeroCost, shop);
    reckon::refused(rt, 6, Reason::CostAboveBurst, shop);
    reckon::refused(rt, 7, Reason::CorruptRecord, shop);
    reckon::refused(rt, 8, Reason::OtherPlan, shop);
    reckon::refused(rt, 9, Reason::NotOnClock, shop);
    reckon::refused(rt, 10, Reason::TableFull, shop);
    reckon::cleared(rt, 0, Ok(()));
    reckon::cleared(rt, 1, Err(Reason::BadTable));
}

// Waits that end at the clock's last moment or a millisecond beyond it, and the largest numbers.
pub fn waits(rt: &impl Print) {
    reckon::wait(rt, 0, 0);
    reckon::wait(rt, 0, 4_398_046_511_103);
    reckon::wait(rt, 0, 4_398_046_511_104);
    reckon::wait(rt, 4_398_046_510_769, 334);
    reckon::wait(rt, 4_398_046_510_770, 334);
    reckon::wait(rt, 4_398_046_511_103, 0);
    reckon::wait(rt, 4_398_046_511_103, 1);
    reckon::wait(rt, 4_398_046_511_104, 0);
    reckon::wait(rt, 0, 18_446_744_073_709_551_615);
    reckon::wait(rt, 18_446_744_073_709_551_615, 0);
    reckon::wait(rt, 18_446_744_073_709_551_615, 18_446_744_073_709_551_615);
}

pub fn divisions(rt: &impl Print) {
    reckon::div_up(rt, 0, 0);
    reckon::div_up(rt, 18_446_744_073_709_551_615, 0);
    reckon::div_up(rt, 0, 1);
    reckon::div_up(rt, 0, 18_446_744_073_709_551_615);
    reckon::div_up(rt, 999, 3);
    reckon::div_up(rt, 1000, 3);
    reckon::div_up(rt, 1001, 3);
    reckon::div_up(rt, 18_446_744_073_709_551_615, 1);
    reckon::div_up(rt, 18_446_744_073_709_551_615, 2);
    reckon::div_up(rt, 18_446_744_073_709_551_614, 18_446_744_073_709_551_615);
    reckon::div_up(rt, 18_446_744_073_709_551_615, 18_446_744_073_709_551_614);
    reckon::div_up(rt, 18_446_744_073_709_551_615, 18_446_744_073_709_551_615);
}
