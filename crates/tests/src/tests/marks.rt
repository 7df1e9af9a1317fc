// Cases of worked examples.
use cord_mark::Mark;

fn fresh() -> Mark {
    Mark::new(&0, &0)
}

#[test]
fn one_mark_is_the_same_and_two_are_not(rt: HostRuntime) {
    let one = fresh();
    let two = fresh();
    let same = [one.same(&one), one.same(&one), two.same(&two)];
    assert!(rt; same == [true; 3]);
    assert!(rt; !one.same(&two) && !two.same(&one));
    assert!(rt; size_of::<Mark>() == 1);
}
