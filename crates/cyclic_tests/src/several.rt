//! Runs of scripts over several CPUs.

use crate::tests::gives_texts;

/// Scripts, each with its text.
static RUNS: [(&str, &str, &str); 29] = [
    (
        "bound_cyclics_are_left",
        "{\"cpus\":2,\"steps\":[[\"add\",\"a\",\"high\",10,10],[\"add\",\"b\",\"high\",10,10],[\"add\",\"c\",\"high\",10,10],\
         [\"bind\",\"a\",0],[\"offline\",0],[\"unbind\",\"a\"],[\"offline\",0],[\"softint\",1,\"low\",1],\
         [\"softint\",1,\"lock\",1],[\"offline\",0],[\"offline\",1],[\"offline\",0]]}",
        "1 ok\n2 ok\n3 ok\n4 ok\n5 left moved 1 bound 1 pending 0 refused 0\n6 ok\n7 left moved 0 bound 0 pending 0 refused 1\n\
         8 ran 0 idle\n9 ran 0 idle\n10 ok\n11 refused 15\n12 refused 14\na expired 0 called 0 lost 0 pending 0\n\
         b expired 0 called 0 lost 0 pending 0\nc expired 0 called 0 lost 0 pending 0\n",
    ),
    (
        "a_move_keeps_the_series",
        "{\"cpus\":2,\"steps\":[[\"add\",\"a\",\"low\",10,10],[\"advance\",10],[\"juggle\",0],[\"softint\",0,\"low\",8],\
         [\"juggle\",0],[\"advance\",20],[\"softint\",1,\"low\",8]]}",
        "1 ok\n2 fired 1 lost 0\n3 moved 0 bound 0 pending 1 refused 0\n4 ran 1 idle\n5 moved 1 bound 0 pending 0 refused 0\n\
         6 fired 1 lost 0\n7 ran 1 idle\na expired 2 called 2 lost 0 pending 0\n",
    ),
    (
        "a_component_begins_again_at_its_start",
        "{\"cpus\":2,\"steps\":[[\"omni\",\"a\",\"high\",10,10,3],[\"advance\",23],[\"offline\",1],[\"online\",1],\
         [\"advance\",33]]}",
        "1 ok\n2 fired 4 lost 0\n3 ok\n4 ok\n5 fired 4 lost 0\na expired 8 called 8 lost 0 pending 0\n",
    ),
    (
        "a_cpu_comes_back_with_room_for_all_components",
        "{\"cpus\":2,\"steps\":[[\"omni\",\"a\",\"high\",10,10,0],[\"omni\",\"b\",\"high\",10,10,0],[\"offline\",1],\
         [\"softint\",0,\"low\",1],[\"softint\",0,\"lock\",1],[\"omni\",\"c\",\"high\",10,10,0],[\"online\",1],\
         [\"softint\",1,\"low\",1],[\"softint\",1,\"lock\",1],[\"online\",1],[\"advance\",10],[\"online\",1]]}",
        "1 ok\n2 ok\n3 ok\n4 ran 0 idle\n5 ran 0 idle\n6 ok\n7 refused 6\n8 ran 0 idle\n9 ran 0 idle\n10 ok\n\
         11 fired 6 lost 0\n12 refused 24\na expired 2 called 2 lost 0 pending 0\nb expired 2 called 2 lost 0 pending 0\n\
         c expired 2 called 2 lost 0 pending 0\n",
    ),
    (
        "a_component_with_calls_outstanding_stays",
        "{\"cpus\":2,\"steps\":[[\"omni\",\"a\",\"low\",10,10,0],[\"advance\",10],[\"offline\",1],[\"softint\",1,\"low\",8],\
         [\"offline\",1]]}",
        "1 ok\n2 fired 2 lost 0\n3 refused 9\n4 ran 1 idle\n5 ok\na expired 2 called 1 lost 0 pending 1\n",
    ),
    (
        "binding_and_its_refusals",
        "{\"cpus\":2,\"steps\":[[\"add\",\"a\",\"low\",10,10],[\"advance\",10],[\"bind\",\"a\",1],[\"bind\",\"a\",2],\
         [\"softint\",0,\"low\",8],[\"bind\",\"a\",1],[\"offline\",0],[\"bind\",\"a\",0],[\"omni\",\"o\",\"high\",10,10,0],\
         [\"bind\",\"o\",1],[\"reprogram\",\"o\",50],[\"reprogram\",\"o\",50,1]]}",
        "1 ok\n2 fired 1 lost 0\n3 refused 9\n4 refused 13\n5 ran 1 idle\n6 ok\n7 ok\n8 refused 14\n9 ok\n10 refused 16\n\
         11 refused 16\n12 ok\na expired 1 called 1 lost 0 pending 0\no expired 0 called 0 lost 0 pending 0\n",
    ),
    (
        "a_drained_component_frees_its_cpu",
        "{\"cpus\":2,\"steps\":[[\"omni\",\"a\",\"low\",10,10,0],[\"add\",\"b\",\"high\",50,10],[\"advance\",10],\
         [\"remove\",\"a\"],[\"remove\",\"b\"],[\"softint\",0,\"low\",8],[\"remove\",\"b\"],[\"remove\",\"a\"],\
         [\"softint\",1,\"low\",8]]}",
        "1 ok\n2 ok\n3 fired 2 lost 0\n4 kept 2\n5 refused 7\n6 ran 1 idle\n7 removed b 0\n8 refused 7\n9 ran 1 idle\n\
         9 removed a 2\na expired 2 called 2 lost 0 pending 0\nb expired 0 called 0 lost 0 pending 0\n",
    ),
    (
        "only_a_start_of_zero_is_aligned",
        "{\"cpus\":2,\"steps\":[[\"advance\",25],[\"omni\",\"a\",\"high\",0,10,3],[\"advance\",25]]}",
        "1 fired 0 lost 0\n2 ok\n3 fired 3 lost 0\na expired 3 called 3 lost 0 pending 0\n",
    ),
    (
        "a_start_past_never_is_never",
        "{\"cpus\":2,\"steps\":[[\"omni\",\"a\",\"high\",5,10,9223372036854775807],[\"advance\",9223372036854775806]]}",
        "1 ok\n2 fired 1 lost 0\na expired 1 called 1 lost 0 pending 0\n",
    ),
    (
        "a_cyclic_whose_removal_is_open_counts",
        "{\"cpus\":2,\"steps\":[[\"add\",\"a\",\"low\",1,10],[\"add\",\"b\",\"high\",100,10],[\"add\",\"c\",\"high\",100,10],\
         [\"advance\",1],[\"remove\",\"a\"],[\"add\",\"d\",\"high\",100,10],[\"softint\",0,\"low\",8],[\"juggle\",1]]}",
        "1 ok\n2 ok\n3 ok\n4 fired 1 lost 0\n5 kept 1\n6 ok\n7 ran 1 idle\n7 removed a 1\n\
         8 moved 1 bound 0 pending 0 refused 1\na expired 1 called 1 lost 0 pending 0\nb expired 0 called 0 lost 0 pending 0\n\
         c expired 0 called 0 lost 0 pending 0\nd expired 0 called 0 lost 0 pending 0\n",
    ),
    (
        "the_refusals_of_a_reprogram",
        "{\"cpus\":2,\"steps\":[[\"add\",\"a\",\"high\",10,10],[\"add\",\"z\",\"high\",0,0],[\"reprogram\",\"z\",-1],\
         [\"reprogram\",\"z\",5],[\"reprogram\",\"a\",5,9],[\"reprogram\",\"a\",5,0],[\"offline\",1],[\"reprogram\",\"a\",5,1],\
         [\"omni\",\"o\",\"high\",50,10,0],[\"reprogram\",\"o\",5,0],[\"advance\",5]]}",
        "1 ok\n2 refused 3\n3 refused 2\n4 refused 8\n5 refused 13\n6 refused 8\n7 ok\n8 refused 14\n9 ok\n10 ok\n\
         11 fired 1 lost 0\na expired 0 called 0 lost 0 pending 0\nz expired 0 called 0 lost 0 pending 0\n\
         o expired 1 called 1 lost 0 pending 0\n",
    ),
    (
        "a_bound_cyclic_can_be_bound_elsewhere",
        "{\"cpus\":2,\"steps\":[[\"add\",\"a\",\"high\",10,10],[\"bind\",\"a\",0],[\"bind\",\"a\",1],[\"offline\",0]]}",
        "1 ok\n2 ok\n3 ok\n4 ok\na expired 0 called 0 lost 0 pending 0\n",
    ),
    (
        "a_refused_bind_does_not_bind",
        "{\"cpus\":2,\"steps\":[[\"add\",\"a\",\"low\",10,10],[\"advance\",10],[\"bind\",\"a\",1],[\"softint\",0,\"low\",8],\
         [\"juggle\",0]]}",
        "1 ok\n2 fired 1 lost 0\n3 refused 9\n4 ran 1 idle\n5 moved 1 bound 0 pending 0 refused 0\n\
         a expired 1 called 1 lost 0 pending 0\n",
    ),
    (
        "no_cyclic_leaves_a_cpu_with_an_open_removal",
        "{\"cpus\":2,\"steps\":[[\"add\",\"a\",\"low\",1,10],[\"add\",\"b\",\"high\",5,10],[\"add\",\"c\",\"low\",1,10],\
         [\"advance\",1],[\"remove\",\"a\"],[\"bind\",\"c\",1],[\"juggle\",0],[\"offline\",0]]}",
        "1 ok\n2 ok\n3 ok\n4 fired 2 lost 0\n5 kept 1\n6 refused 7\n7 refused 7\n8 refused 7\n\
         a expired 1 called 0 lost 0 pending 1\nb expired 0 called 0 lost 0 pending 0\nc expired 1 called 0 lost 0 pending 1\n",
    ),
    (
        "bound_is_counted_before_pending",
        "{\"cpus\":2,\"steps\":[[\"add\",\"a\",\"low\",1,10],[\"bind\",\"a\",0],[\"advance\",1],[\"juggle\",0]]}",
        "1 ok\n2 ok\n3 fired 1 lost 0\n4 moved 0 bound 1 pending 0 refused 0\na expired 1 called 0 lost 0 pending 1\n",
    ),
    (
        "each_cyclic_takes_its_destination_afresh",
        "{\"cpus\":3,\"steps\":[[\"add\",\"a\",\"high\",10,10],[\"add\",\"b\",\"high\",10,10],[\"add\",\"c\",\"high\",10,10],\
         [\"add\",\"d\",\"high\",10,10],[\"juggle\",0]]}",
        "1 ok\n2 ok\n3 ok\n4 ok\n5 moved 2 bound 0 pending 0 refused 0\na expired 0 called 0 lost 0 pending 0\n\
         b expired 0 called 0 lost 0 pending 0\nc expired 0 called 0 lost 0 pending 0\nd expired 0 called 0 lost 0 pending 0\n",
    ),
    (
        "no_second_destination_is_tried",
        "{\"cpus\":3,\"steps\":[[\"add\",\"a\",\"high\",10,10],[\"add\",\"b\",\"high\",10,10],[\"add\",\"c\",\"high\",10,10],\
         [\"add\",\"d\",\"high\",10,10],[\"add\",\"e\",\"high\",10,10],[\"add\",\"f\",\"high\",10,10],\
         [\"softint\",2,\"low\",1],[\"softint\",2,\"lock\",1],[\"bind\",\"d\",2],[\"juggle\",0]]}",
        "1 ok\n2 ok\n3 ok\n4 ok\n5 ok\n6 ok\n7 ran 0 idle\n8 ran 0 idle\n9 ok\n10 moved 0 bound 0 pending 0 refused 1\n\
         a expired 0 called 0 lost 0 pending 0\nb expired 0 called 0 lost 0 pending 0\nc expired 0 called 0 lost 0 pending 0\n\
         d expired 0 called 0 lost 0 pending 0\ne expired 0 called 0 lost 0 pending 0\nf expired 0 called 0 lost 0 pending 0\n",
    ),
    (
        "a_removal_that_is_done_here_does_not_hinder",
        "{\"cpus\":2,\"steps\":[[\"omni\",\"a\",\"low\",10,10,0],[\"advance\",10],[\"softint\",0,\"low\",8],[\"remove\",\"a\"],\
         [\"offline\",0],[\"online\",0],[\"advance\",20],[\"softint\",1,\"low\",8]]}",
        "1 ok\n2 fired 2 lost 0\n3 ran 1 idle\n4 kept 1\n5 ok\n6 ok\n7 fired 0 lost 0\n8 ran 1 idle\n8 removed a 2\n\
         a expired 2 called 2 lost 0 pending 0\n",
    ),
    (
        "what_moved_stays_moved",
        "{\"cpus\":2,\"steps\":[[\"add\",\"b\",\"high\",100,10],[\"bind\",\"b\",0],[\"omni\",\"a\",\"low\",10,10,0],\
         [\"advance\",10],[\"offline\",0],[\"unbind\",\"b\"],[\"offline\",0],[\"juggle\",0]]}",
        "1 ok\n2 ok\n3 ok\n4 fired 2 lost 0\n5 left moved 0 bound 1 pending 0 refused 0\n6 ok\n7 refused 9\n\
         8 moved 0 bound 0 pending 0 refused 0\nb expired 0 called 0 lost 0 pending 0\na expired 2 called 0 lost 0 pending 2\n",
    ),
    (
        "while_a_removal_is_open",
        "{\"cpus\":2,\"steps\":[[\"add\",\"a\",\"low\",1,10],[\"advance\",1],[\"remove\",\"a\"],[\"bind\",\"a\",0],\
         [\"bind\",\"a\",9],[\"unbind\",\"a\"],[\"reprogram\",\"a\",5],[\"reprogram\",\"a\",5,9],[\"remove\",\"a\"]]}",
        "1 ok\n2 fired 1 lost 0\n3 kept 1\n4 refused 8\n5 refused 8\n6 refused 8\n7 refused 8\n8 refused 8\n9 refused 7\n\
         a expired 1 called 0 lost 0 pending 1\n",
    ),
    (
        "a_refused_move_leaves_no_mark",
        "{\"cpus\":2,\"steps\":[[\"add\",\"a\",\"low\",10,10],[\"advance\",10],[\"bind\",\"a\",1],[\"advance\",20],\
         [\"softint\",0,\"low\",8],[\"bind\",\"a\",1],[\"advance\",30],[\"softint\",1,\"low\",8]]}",
        "1 ok\n2 fired 1 lost 0\n3 refused 9\n4 fired 1 lost 0\n5 ran 2 idle\n6 ok\n7 fired 1 lost 0\n8 ran 1 idle\n\
         a expired 3 called 3 lost 0 pending 0\n",
    ),
    (
        "a_one_shot_without_a_start_never_fires",
        "{\"cpus\":1,\"steps\":[[\"add\",\"a\",\"high\",0,9223372036854775807],[\"advance\",9223372036854775806]]}",
        "1 ok\n2 fired 0 lost 0\na expired 0 called 0 lost 0 pending 0\n",
    ),
    (
        "no_budget_is_no_look",
        "{\"cpus\":1,\"steps\":[[\"add\",\"a\",\"low\",1,10],[\"add\",\"b\",\"low\",2,10],[\"softint\",0,\"lock\",1],\
         [\"softint\",0,\"low\",0],[\"add\",\"c\",\"low\",3,10],[\"softint\",0,\"low\",1],[\"add\",\"d\",\"low\",3,10],\
         [\"advance\",1],[\"softint\",0,\"low\",1],[\"softint\",0,\"low\",1]]}",
        "1 ok\n2 ok\n3 ran 0 idle\n4 ran 0 more\n5 refused 6\n6 ran 0 idle\n7 ok\n8 fired 1 lost 0\n9 ran 1 more\n\
         10 ran 0 idle\na expired 1 called 1 lost 0 pending 0\nb expired 0 called 0 lost 0 pending 0\n\
         c expired 0 called 0 lost 0 pending 0\nd expired 0 called 0 lost 0 pending 0\n",
    ),
    (
        "a_removal_is_named_before_the_banks",
        "{\"cpus\":1,\"steps\":[[\"add\",\"a\",\"low\",1,10],[\"add\",\"b\",\"low\",100,10],[\"advance\",1],[\"remove\",\"a\"],\
         [\"add\",\"c\",\"high\",5,10],[\"softint\",0,\"low\",8],[\"add\",\"d\",\"high\",5,10],[\"add\",\"e\",\"high\",5,10],\
         [\"softint\",0,\"lock\",1],[\"add\",\"f\",\"high\",5,10],[\"add\",\"g\",\"low\",100,10]]}",
        "1 ok\n2 ok\n3 fired 1 lost 0\n4 kept 1\n5 refused 7\n6 ran 1 idle\n6 removed a 1\n7 ok\n8 refused 6\n9 ran 0 idle\n\
         10 ok\n11 ok\na expired 1 called 1 lost 0 pending 0\nb expired 0 called 0 lost 0 pending 0\n\
         c expired 0 called 0 lost 0 pending 0\nd expired 0 called 0 lost 0 pending 0\ne expired 0 called 0 lost 0 pending 0\n\
         f expired 0 called 0 lost 0 pending 0\ng expired 0 called 0 lost 0 pending 0\n",
    ),
    (
        "high_cyclics_use_indexes_too",
        "{\"cpus\":1,\"steps\":[[\"add\",\"a\",\"high\",1,10],[\"add\",\"b\",\"high\",2,10],[\"add\",\"c\",\"high\",3,10],\
         [\"softint\",0,\"low\",8],[\"add\",\"d\",\"high\",3,10],[\"softint\",0,\"lock\",8],[\"add\",\"e\",\"high\",3,10]]}",
        "1 ok\n2 ok\n3 refused 6\n4 ran 0 idle\n5 refused 6\n6 ran 0 idle\n7 ok\na expired 0 called 0 lost 0 pending 0\n\
         b expired 0 called 0 lost 0 pending 0\nc expired 0 called 0 lost 0 pending 0\nd expired 0 called 0 lost 0 pending 0\n\
         e expired 0 called 0 lost 0 pending 0\n",
    ),
    (
        "the_refusals_of_a_bind",
        "{\"cpus\":3,\"steps\":[[\"add\",\"a\",\"low\",1,10],[\"add\",\"b\",\"low\",1,10],[\"offline\",2],\
         [\"omni\",\"p\",\"low\",1,10,0],[\"advance\",1],[\"bind\",\"p\",9],[\"bind\",\"a\",2],[\"bind\",\"a\",1],\
         [\"softint\",0,\"low\",8],[\"bind\",\"a\",1],[\"remove\",\"p\"],[\"bind\",\"a\",1],[\"bind\",\"p\",9]]}",
        "1 ok\n2 ok\n3 ok\n4 ok\n5 fired 4 lost 0\n6 refused 16\n7 refused 14\n8 refused 9\n9 ran 2 idle\n10 refused 6\n\
         11 kept 1\n12 refused 7\n13 refused 8\na expired 1 called 1 lost 0 pending 0\nb expired 1 called 0 lost 0 pending 1\n\
         p expired 2 called 1 lost 0 pending 1\n",
    ),
    (
        "the_refusals_of_an_offline",
        "{\"cpus\":2,\"steps\":[[\"add\",\"a\",\"low\",1,10],[\"offline\",9],[\"juggle\",9],[\"online\",9],[\"offline\",1],\
         [\"advance\",1],[\"remove\",\"a\"],[\"offline\",0],[\"juggle\",0],[\"juggle\",1],[\"online\",1],[\"offline\",0]]}",
        "1 ok\n2 refused 13\n3 refused 13\n4 refused 13\n5 ok\n6 fired 1 lost 0\n7 kept 1\n8 refused 15\n9 refused 15\n\
         10 refused 14\n11 ok\n12 refused 7\na expired 1 called 0 lost 0 pending 1\n",
    ),
    (
        "one_that_is_leaving_needs_no_room_on_a_cpu_that_returns",
        "{\"cpus\":2,\"steps\":[[\"omni\",\"a\",\"high\",10,10,0],[\"omni\",\"b\",\"high\",10,10,0],[\"offline\",1],\
         [\"softint\",0,\"low\",1],[\"softint\",0,\"lock\",1],[\"omni\",\"c\",\"low\",10,10,0],[\"advance\",10],\
         [\"remove\",\"c\"],[\"online\",1],[\"advance\",20],[\"softint\",0,\"low\",8]]}",
        "1 ok\n2 ok\n3 ok\n4 ran 0 idle\n5 ran 0 idle\n6 ok\n7 fired 3 lost 0\n8 kept 1\n9 ok\n10 fired 6 lost 0\n\
         11 ran 1 idle\n11 removed c 1\na expired 4 called 4 lost 0 pending 0\nb expired 4 called 4 lost 0 pending 0\n\
         c expired 1 called 1 lost 0 pending 0\n",
    ),
    (
        "a_cpu_that_comes_online_is_suspended",
        "{\"cpus\":2,\"steps\":[[\"omni\",\"a\",\"high\",10,10,0],[\"offline\",1],[\"suspend\"],[\"online\",1],\
         [\"advance\",20],[\"resume\"],[\"advance\",20]]}",
        "1 ok\n2 ok\n3 ok\n4 ok\n5 refused 25\n6 ok\n7 fired 4 lost 0\na expired 4 called 4 lost 0 pending 0\n",
    ),
];

#[test]
fn each_script_over_several_cpus_gives_its_text(rt: HostRuntime) {
    gives_texts(&rt, &RUNS);
}
