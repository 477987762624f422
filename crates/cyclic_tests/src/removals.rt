//! Runs of scripts that remove cyclics.

use crate::tests::gives_texts;
use cyc_script::read_script;
use cyc_types::Refusal;

/// Scripts, each with its text.
static RUNS: [(&str, &str, &str); 16] = [
    (
        "kept_calls_are_made_before_a_removal_answers",
        "{\"cpus\":1,\"steps\":[[\"add\",\"a\",\"low\",1,1],[\"advance\",3],[\"remove\",\"a\"],[\"advance\",9],\
         [\"remove\",\"a\"],[\"softint\",0,\"low\",2],[\"softint\",0,\"low\",8],[\"remove\",\"a\"]]}",
        "1 ok\n2 fired 3 lost 0\n3 kept 3\n4 fired 0 lost 0\n5 refused 7\n6 ran 2 more\n7 ran 1 idle\n7 removed a 3\n\
         8 refused 8\na expired 3 called 3 lost 0 pending 0\n",
    ),
    (
        "a_high_cyclic_is_removed_at_once",
        "{\"cpus\":1,\"steps\":[[\"add\",\"a\",\"high\",0,10],[\"advance\",20],[\"remove\",\"a\"],[\"remove\",\"a\"]]}",
        "1 ok\n2 fired 2 lost 0\n3 removed a 2\n4 refused 8\na expired 2 called 2 lost 0 pending 0\n",
    ),
    (
        "one_that_never_expired_is_removed_at_once",
        "{\"cpus\":1,\"steps\":[[\"add\",\"a\",\"low\",5,10],[\"remove\",\"a\"],[\"remove\",\"a\"],[\"advance\",50]]}",
        "1 ok\n2 removed a 0\n3 refused 8\n4 fired 0 lost 0\na expired 0 called 0 lost 0 pending 0\n",
    ),
    (
        "one_whose_calls_were_made_is_removed_at_once",
        "{\"cpus\":1,\"steps\":[[\"add\",\"a\",\"lock\",1,1],[\"advance\",2],[\"softint\",0,\"lock\",2],[\"remove\",\"a\"]]}",
        "1 ok\n2 fired 2 lost 0\n3 ran 2 more\n4 removed a 2\na expired 2 called 2 lost 0 pending 0\n",
    ),
    (
        "the_one_in_hand_keeps_its_other_calls",
        "{\"cpus\":1,\"steps\":[[\"add\",\"a\",\"low\",1,1],[\"advance\",3],[\"softint\",0,\"low\",1],[\"remove\",\"a\"],\
         [\"softint\",0,\"low\",1],[\"softint\",0,\"low\",8]]}",
        "1 ok\n2 fired 3 lost 0\n3 ran 1 more\n4 kept 2\n5 ran 1 more\n6 ran 1 idle\n6 removed a 3\n\
         a expired 3 called 3 lost 0 pending 0\n",
    ),
    (
        "the_last_call_of_a_budget_answers",
        "{\"cpus\":1,\"steps\":[[\"add\",\"a\",\"low\",1,1],[\"advance\",1],[\"remove\",\"a\"],[\"softint\",0,\"low\",0],\
         [\"softint\",0,\"low\",1],[\"softint\",0,\"low\",1]]}",
        "1 ok\n2 fired 1 lost 0\n3 kept 1\n4 ran 0 more\n5 ran 1 more\n5 removed a 1\n6 ran 0 idle\n\
         a expired 1 called 1 lost 0 pending 0\n",
    ),
    (
        "one_in_the_old_bank_while_a_resize_is_open",
        "{\"cpus\":1,\"steps\":[[\"add\",\"a\",\"low\",1,10],[\"advance\",1],[\"add\",\"b\",\"low\",2,10],[\"remove\",\"a\"],\
         [\"advance\",2],[\"softint\",0,\"low\",8]]}",
        "1 ok\n2 fired 1 lost 0\n3 ok\n4 kept 1\n5 fired 1 lost 0\n6 ran 2 idle\n6 removed a 1\n\
         a expired 1 called 1 lost 0 pending 0\nb expired 1 called 1 lost 0 pending 0\n",
    ),
    (
        "the_others_go_on_while_a_removal_is_open",
        "{\"cpus\":1,\"steps\":[[\"add\",\"a\",\"low\",1,1],[\"add\",\"b\",\"low\",2,2],[\"advance\",2],[\"remove\",\"a\"],\
         [\"advance\",4],[\"softint\",0,\"low\",1],[\"softint\",0,\"low\",1],[\"advance\",6],[\"softint\",0,\"low\",1],\
         [\"softint\",0,\"low\",1],[\"softint\",0,\"low\",1],[\"softint\",0,\"low\",1]]}",
        "1 ok\n2 ok\n3 fired 3 lost 0\n4 kept 2\n5 fired 1 lost 0\n6 ran 1 more\n7 ran 1 more\n7 removed a 2\n\
         8 fired 1 lost 0\n9 ran 1 more\n10 ran 1 more\n11 ran 1 more\n12 ran 0 idle\na expired 2 called 2 lost 0 pending 0\n\
         b expired 3 called 3 lost 0 pending 0\n",
    ),
    (
        "lost_expirations_are_no_calls",
        "{\"cpus\":1,\"ceiling\":2,\"steps\":[[\"add\",\"a\",\"low\",1,1],[\"advance\",5],[\"remove\",\"a\"],\
         [\"softint\",0,\"low\",8]]}",
        "1 ok\n2 fired 5 lost 3\n3 kept 2\n4 ran 2 idle\n4 removed a 2\na expired 5 called 2 lost 3 pending 0\n",
    ),
    (
        "calls_of_another_level_do_not_answer",
        "{\"cpus\":1,\"steps\":[[\"add\",\"a\",\"low\",1,1],[\"advance\",1],[\"remove\",\"a\"],[\"softint\",0,\"lock\",8],\
         [\"softint\",0,\"low\",8]]}",
        "1 ok\n2 fired 1 lost 0\n3 kept 1\n4 ran 0 idle\n5 ran 1 idle\n5 removed a 1\na expired 1 called 1 lost 0 pending 0\n",
    ),
    (
        "only_one_removal_is_open",
        "{\"cpus\":1,\"steps\":[[\"add\",\"a\",\"low\",1,1],[\"add\",\"b\",\"low\",1,1],[\"advance\",1],[\"remove\",\"a\"],\
         [\"remove\",\"b\"],[\"softint\",0,\"low\",8],[\"remove\",\"b\"]]}",
        "1 ok\n2 ok\n3 fired 2 lost 0\n4 kept 1\n5 refused 7\n6 ran 2 idle\n6 removed a 1\n7 removed b 1\n\
         a expired 1 called 1 lost 0 pending 0\nb expired 1 called 1 lost 0 pending 0\n",
    ),
    (
        "a_removed_name_is_not_reprogrammed",
        "{\"cpus\":1,\"steps\":[[\"add\",\"a\",\"high\",0,10],[\"advance\",20],[\"remove\",\"a\"],[\"reprogram\",\"a\",30],\
         [\"reprogram\",\"a\",-1],[\"advance\",40]]}",
        "1 ok\n2 fired 2 lost 0\n3 removed a 2\n4 refused 8\n5 refused 2\n6 fired 0 lost 0\n\
         a expired 2 called 2 lost 0 pending 0\n",
    ),
    (
        "one_whose_removal_is_open_is_not_reprogrammed",
        "{\"cpus\":1,\"steps\":[[\"add\",\"a\",\"low\",1,1],[\"advance\",1],[\"remove\",\"a\"],[\"reprogram\",\"a\",5],\
         [\"advance\",9],[\"softint\",0,\"low\",8]]}",
        "1 ok\n2 fired 1 lost 0\n3 kept 1\n4 refused 8\n5 fired 0 lost 0\n6 ran 1 idle\n6 removed a 1\n\
         a expired 1 called 1 lost 0 pending 0\n",
    ),
    (
        "no_size_grows_while_a_removal_is_open",
        "{\"cpus\":1,\"steps\":[[\"add\",\"a\",\"low\",1,1],[\"add\",\"b\",\"low\",1,9],[\"advance\",1],[\"remove\",\"a\"],\
         [\"add\",\"c\",\"low\",5,5],[\"softint\",0,\"low\",8],[\"add\",\"d\",\"low\",5,5],[\"add\",\"e\",\"low\",5,5]]}",
        "1 ok\n2 ok\n3 fired 2 lost 0\n4 kept 1\n5 refused 7\n6 ran 2 idle\n6 removed a 1\n7 ok\n8 refused 6\n\
         a expired 1 called 1 lost 0 pending 0\nb expired 1 called 1 lost 0 pending 0\nc expired 0 called 0 lost 0 pending 0\n\
         d expired 0 called 0 lost 0 pending 0\ne expired 0 called 0 lost 0 pending 0\n",
    ),
    (
        "an_add_with_room_is_taken_while_a_removal_is_open",
        "{\"cpus\":1,\"steps\":[[\"add\",\"a\",\"low\",1,1],[\"add\",\"b\",\"high\",9,9],[\"remove\",\"b\"],[\"advance\",1],\
         [\"remove\",\"a\"],[\"add\",\"c\",\"low\",2,2],[\"advance\",2],[\"softint\",0,\"low\",8]]}",
        "1 ok\n2 ok\n3 removed b 0\n4 fired 1 lost 0\n5 kept 1\n6 ok\n7 fired 1 lost 0\n8 ran 2 idle\n8 removed a 1\n\
         a expired 1 called 1 lost 0 pending 0\nb expired 0 called 0 lost 0 pending 0\nc expired 1 called 1 lost 0 pending 0\n",
    ),
    (
        "a_refused_name_has_nothing_to_remove",
        "{\"cpus\":1,\"steps\":[[\"add\",\"a\",\"low\",0,0],[\"remove\",\"a\"],[\"add\",\"b\",\"low\",1,1],[\"advance\",1],\
         [\"remove\",\"b\"],[\"remove\",\"a\"]]}",
        "1 refused 3\n2 refused 8\n3 ok\n4 fired 1 lost 0\n5 kept 1\n6 refused 8\na expired 0 called 0 lost 0 pending 0\n\
         b expired 1 called 0 lost 0 pending 1\n",
    ),
];

#[test]
fn each_removal_gives_its_text(rt: HostRuntime) {
    gives_texts(&rt, &RUNS);
}

#[test]
fn a_removal_needs_a_name_that_was_added(rt: HostRuntime) {
    let script = "{\"cpus\":1,\"steps\":[[\"remove\",\"a\"]]}";
    let refused = read_script(rt.alloc(), script.as_bytes()).err();
    assert_eq!(rt; refused, Some(Refusal::NoName(1)));
}
