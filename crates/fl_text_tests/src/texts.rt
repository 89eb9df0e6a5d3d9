//! Texts of graphs: which graph each is, or why it is none.
//!
//! The rows are those of the format's rules, worked out by hand, and the graphs that pipelines become at a width. In a row `'` stands
//! for `"`, and its first word is what `read` answers: `same` where it gives a graph whose text is the row's again, `ok` where it gives
//! another one.
use fl_graph::validate;
use fl_text::{TextFault, print, read};
use std::alloc::Global;
use std::test::Fail;

/// What a text is, as one word.
fn answer(alloc: Global, text: &[u8]) -> Result<&'static str, Fail> {
    match read(alloc, text) {
        Ok(graph) => {
            let is_valid = validate(&graph);
            let printed = print(alloc, &graph);
            drop(graph);
            let is_same = printed?.as_slice() == text;
            Ok(match (is_valid, is_same) {
                (true, true) => "same",
                (true, false) => "ok",
                (false, _) => "invalid",
            })
        }
        Err(fault) => Ok(name_of(fault)),
    }
}

fn name_of(fault: TextFault) -> &'static str {
    match fault {
        TextFault::NotJson => "NotJson",
        TextFault::BadVersion => "BadVersion",
        TextFault::NotGraph => "NotGraph",
        TextFault::Memory => "Memory",
    }
}

/// Appends a row's text.
fn add(text: &mut Vec<u8>, row: &str) -> Result<(), Fail> {
    for byte in row.as_bytes() {
        text.push(if *byte == b'\'' { b'"' } else { *byte })?;
    }
    Ok(())
}

/// Whether the text is what its row says, between these two.
fn holds(alloc: Global, begin: &str, row: &str, end: &str) -> Result<bool, Fail> {
    let (wanted, rest) = row.split_once(' ').unwrap_or((row, ""));
    let mut text = Vec::new(alloc);
    add(&mut text, begin)?;
    add(&mut text, rest)?;
    add(&mut text, end)?;
    Ok(answer(alloc, text.as_slice())? == wanted)
}

/// The nodes of a graph whose status is 0.
static NODES: &str = "same 
same {'in':[],'kind':'source','out':[0],'stage':0},{'in':[0],'kind':'sink','out':[],'stage':0}
same {'in':[],'kind':'source','out':[0],'path':'/w/f','stage':0},{'in':[0],'kind':'split','out':[1,2],'stage':0},{'in':[1],'kind':'map','out':[3],'stage':0,'words':['wc','-l']},{'in':[2],'kind':'map','out':[4],'stage':0,'words':['wc','-l']},{'in':[3,4],'kind':'agg','out':[5],'stage':0,'words':['wc','-l']},{'in':[5],'kind':'sink','out':[],'stage':0}
same {'in':[],'kind':'source','out':[0],'path':'/','stage':0},{'in':[0],'kind':'sink','out':[],'stage':0}
same {'in':[],'kind':'source','out':[0],'stage':0},{'append':true,'in':[0],'kind':'tee','out':[1],'path':'/w/g','stage':0},{'append':false,'in':[1],'kind':'sink','out':[],'path':'/w/h','stage':0}
same {'in':[],'kind':'source','out':[0],'stage':0},{'in':[0],'kind':'split','out':[1],'stage':0},{'in':[1],'kind':'drain','out':[],'stage':0}
same {'in':[],'kind':'source','out':[0],'stage':0},{'close':true,'in':[0],'kind':'cat','out':[1],'stage':0},{'in':[1],'kind':'sink','out':[],'stage':4294967295}
same {'in':[],'kind':'whole','out':[0],'stage':0,'words':['grep','x','']},{'in':[0],'kind':'drain','out':[],'stage':0}
same {'in':[],'kind':'source','out':[0],'stage':0},{'in':[],'kind':'text','out':[1],'stage':0,'text':''},{'in':[0,1],'kind':'whole','out':[2],'stage':0,'words':['head','f','g']},{'in':[2],'kind':'drain','out':[],'stage':0}
same {'in':[],'kind':'source','out':[0],'stage':0},{'in':[0],'kind':'map','out':[1],'stage':0,'words':['grep','x']},{'in':[1],'kind':'drain','out':[],'stage':0}
same {'in':[],'kind':'source','out':[0],'stage':0},{'in':[0],'kind':'whole','out':[1],'stage':0,'words':['paste','-','-']},{'in':[1],'kind':'drain','out':[],'stage':0}
same {'in':[],'kind':'source','out':[0],'stage':0},{'in':[0],'kind':'map','out':[1],'stage':0,'words':['tr','a','b']},{'in':[1],'kind':'drain','out':[],'stage':0}
same {'in':[],'kind':'source','out':[0],'stage':0},{'in':[0],'kind':'map','out':[1],'stage':0,'words':['wc','-l']},{'in':[1],'kind':'finish','out':[2],'stage':0,'words':['wc','-l']},{'in':[2],'kind':'sink','out':[],'stage':0}
same {'in':[],'kind':'source','out':[0],'stage':0},{'in':[0],'kind':'map','out':[1],'stage':0,'words':['sort']},{'in':[1],'kind':'finish','out':[2],'stage':0,'words':['sort']},{'in':[2],'kind':'sink','out':[],'stage':0}
same {'in':[],'kind':'source','out':[0],'path':'/w/f','stage':0},{'in':[],'kind':'source','out':[1],'path':'/w/f','stage':0},{'close':false,'in':[0,1],'kind':'cat','out':[2],'stage':0},{'in':[2],'kind':'sink','out':[],'stage':0}
same {'in':[],'kind':'source','out':[0],'path':'/w/f','stage':0},{'in':[0],'kind':'sink','out':[],'stage':0}
same {'in':[],'kind':'source','out':[0],'path':'/w/f','stage':0},{'in':[0],'kind':'drain','out':[],'stage':0}
same {'in':[],'kind':'source','out':[0],'path':'/w/f','stage':0},{'in':[0],'kind':'whole','out':[1],'stage':0,'words':['sort','f']},{'append':true,'in':[1],'kind':'sink','out':[],'path':'/w/g','stage':0}
same {'in':[],'kind':'source','out':[0],'path':'/w/f','stage':0},{'in':[],'kind':'source','out':[1],'stage':0},{'in':[0,1],'kind':'whole','out':[2],'stage':0,'words':['paste','f','-']},{'in':[2],'kind':'sink','out':[],'stage':0}
same {'in':[],'kind':'source','out':[0],'path':'/w/f','stage':0},{'in':[],'kind':'source','out':[1],'path':'/w/g','stage':0},{'in':[0,1],'kind':'whole','out':[2],'stage':0,'words':['head','-n','1','f','g']},{'in':[2],'kind':'sink','out':[],'stage':0}
same {'in':[],'kind':'source','out':[0],'path':'/w/f','stage':0},{'in':[],'kind':'source','out':[1],'path':'/w/g','stage':0},{'close':false,'in':[0,1],'kind':'cat','out':[2],'stage':0},{'in':[2],'kind':'whole','out':[3],'stage':1,'words':['wc','-l']},{'in':[3],'kind':'sink','out':[],'stage':1}
same {'in':[],'kind':'text','out':[0],'stage':0,'text':''},{'in':[0],'kind':'split','out':[1,2],'stage':1},{'in':[1],'kind':'map','out':[3],'stage':1,'words':['wc','-l']},{'in':[2],'kind':'map','out':[4],'stage':1,'words':['wc','-l']},{'in':[3,4],'kind':'agg','out':[5],'stage':1,'words':['wc','-l']},{'in':[5],'kind':'sink','out':[],'stage':1}
same {'in':[],'kind':'text','out':[0],'stage':0,'text':''},{'in':[0],'kind':'split','out':[1,2],'stage':1},{'in':[1],'kind':'map','out':[3],'stage':1,'words':['tr','a','b']},{'in':[2],'kind':'map','out':[4],'stage':1,'words':['tr','a','b']},{'close':false,'in':[3,4],'kind':'cat','out':[5],'stage':1},{'in':[5],'kind':'sink','out':[],'stage':1}
same {'in':[],'kind':'source','out':[0],'stage':0},{'in':[0],'kind':'split','out':[1,2],'stage':0},{'in':[1],'kind':'map','out':[3],'stage':0,'words':['tr','-s','a']},{'in':[2],'kind':'map','out':[4],'stage':0,'words':['tr','-s','a']},{'in':[3,4],'kind':'agg','out':[5],'stage':0,'words':['tr','-s','a']},{'in':[5],'kind':'sink','out':[],'stage':0}
same {'in':[],'kind':'text','out':[0],'stage':0,'text':''},{'in':[0],'kind':'split','out':[1,2],'stage':1},{'in':[1],'kind':'map','out':[3],'stage':1,'words':['uniq','-c']},{'in':[2],'kind':'map','out':[4],'stage':1,'words':['uniq','-c']},{'in':[3,4],'kind':'agg','out':[5],'stage':1,'words':['uniq','-c']},{'in':[5],'kind':'sink','out':[],'stage':1}
same {'in':[],'kind':'source','out':[0],'path':'/w/f','stage':0},{'in':[0],'kind':'whole','out':[1],'stage':0,'words':['grep','x','f']},{'in':[1],'kind':'whole','out':[2],'stage':1,'words':['cut','-b','1']},{'in':[2],'kind':'whole','out':[3],'stage':2,'words':['sort']},{'in':[3],'kind':'whole','out':[4],'stage':3,'words':['uniq','-c']},{'in':[4],'kind':'sink','out':[],'stage':3}
same {'in':[],'kind':'source','out':[0],'path':'/w/f','stage':0},{'in':[0],'kind':'whole','out':[1],'stage':0,'words':['tail','-n','+2','f']},{'in':[1],'kind':'split','out':[2,3],'stage':1},{'in':[2],'kind':'map','out':[4],'stage':1,'words':['wc','-c']},{'in':[3],'kind':'map','out':[5],'stage':1,'words':['wc','-c']},{'in':[4,5],'kind':'agg','out':[6],'stage':1,'words':['wc','-c']},{'in':[6],'kind':'sink','out':[],'stage':1}
same {'in':[],'kind':'source','out':[0],'path':'/w/f','stage':0},{'in':[],'kind':'source','out':[1],'stage':0},{'close':false,'in':[0,1],'kind':'cat','out':[2],'stage':0},{'in':[2],'kind':'split','out':[3,4],'stage':1},{'in':[3],'kind':'map','out':[5],'stage':1,'words':['sort']},{'in':[4],'kind':'map','out':[6],'stage':1,'words':['sort']},{'in':[5,6],'kind':'agg','out':[7],'stage':1,'words':['sort']},{'in':[7],'kind':'sink','out':[],'stage':1}
same {'in':[],'kind':'source','out':[0],'stage':0},{'in':[0],'kind':'split','out':[1,2],'stage':0},{'in':[1],'kind':'map','out':[3],'stage':0,'words':['grep','x']},{'in':[2],'kind':'map','out':[4],'stage':0,'words':['grep','x']},{'in':[3],'kind':'map','out':[5],'stage':1,'words':['cat']},{'in':[4],'kind':'map','out':[6],'stage':1,'words':['cat']},{'close':false,'in':[5,6],'kind':'cat','out':[7],'stage':1},{'in':[7],'kind':'sink','out':[],'stage':1}
same {'in':[],'kind':'source','out':[0],'path':'/w/f','stage':0},{'in':[0],'kind':'split','out':[1,2],'stage':0},{'in':[1],'kind':'map','out':[3],'stage':0,'words':['grep','x','f']},{'in':[2],'kind':'map','out':[4],'stage':0,'words':['grep','x','f']},{'in':[3],'kind':'map','out':[5],'stage':1,'words':['cut','-b','1']},{'in':[4],'kind':'map','out':[6],'stage':1,'words':['cut','-b','1']},{'in':[5],'kind':'map','out':[7],'stage':2,'words':['sort']},{'in':[6],'kind':'map','out':[8],'stage':2,'words':['sort']},{'in':[7,8],'kind':'agg','out':[9],'stage':2,'words':['sort']},{'in':[9],'kind':'split','out':[10,11],'stage':3},{'in':[10],'kind':'map','out':[12],'stage':3,'words':['uniq','-c']},{'in':[11],'kind':'map','out':[13],'stage':3,'words':['uniq','-c']},{'in':[12,13],'kind':'agg','out':[14],'stage':3,'words':['uniq','-c']},{'in':[14],'kind':'sink','out':[],'stage':3}
same {'in':[],'kind':'source','out':[0],'path':'/w/f','stage':0},{'in':[0],'kind':'split','out':[1,2,3],'stage':0},{'in':[1],'kind':'map','out':[4],'stage':0,'words':['wc','f']},{'in':[2],'kind':'map','out':[5],'stage':0,'words':['wc','f']},{'in':[3],'kind':'map','out':[6],'stage':0,'words':['wc','f']},{'in':[4,5],'kind':'agg','out':[7],'stage':0,'words':['wc','f']},{'in':[7,6],'kind':'agg','out':[8],'stage':0,'words':['wc','f']},{'in':[8],'kind':'finish','out':[9],'stage':0,'words':['wc','f']},{'in':[9],'kind':'sink','out':[],'stage':0}
same {'in':[],'kind':'source','out':[0],'path':'/w/f','stage':0},{'in':[0],'kind':'split','out':[1,2,3],'stage':0},{'in':[1],'kind':'map','out':[4],'stage':0,'words':['uniq','-d','f']},{'in':[2],'kind':'map','out':[5],'stage':0,'words':['uniq','-d','f']},{'in':[3],'kind':'map','out':[6],'stage':0,'words':['uniq','-d','f']},{'in':[4,5],'kind':'agg','out':[7],'stage':0,'words':['uniq','-d','f']},{'in':[7,6],'kind':'agg','out':[8],'stage':0,'words':['uniq','-d','f']},{'in':[8],'kind':'finish','out':[9],'stage':0,'words':['uniq','-d','f']},{'in':[9],'kind':'sink','out':[],'stage':0}
same {'in':[],'kind':'source','out':[0],'path':'/w/f','stage':0},{'in':[],'kind':'source','out':[1],'path':'/w/g','stage':0},{'close':true,'in':[0,1],'kind':'cat','out':[2],'stage':0},{'in':[2],'kind':'split','out':[3,4],'stage':0},{'in':[3],'kind':'map','out':[5],'stage':0,'words':['sort','-u','f','g']},{'in':[4],'kind':'map','out':[6],'stage':0,'words':['sort','-u','f','g']},{'in':[5,6],'kind':'agg','out':[7],'stage':0,'words':['sort','-u','f','g']},{'in':[7],'kind':'sink','out':[],'stage':0}
same {'in':[],'kind':'source','out':[0],'path':'/w/f','stage':0},{'in':[],'kind':'source','out':[1],'path':'/w/g','stage':0},{'in':[],'kind':'source','out':[2],'path':'/w/h','stage':0},{'close':false,'in':[0],'kind':'cat','out':[3],'stage':0},{'close':false,'in':[1,2],'kind':'cat','out':[4],'stage':0},{'in':[3],'kind':'map','out':[5],'stage':1,'words':['tr','a','b']},{'in':[4],'kind':'map','out':[6],'stage':1,'words':['tr','a','b']},{'close':false,'in':[5,6],'kind':'cat','out':[7],'stage':1},{'in':[7],'kind':'sink','out':[],'stage':1}
same {'in':[],'kind':'source','out':[0],'stage':0},{'in':[0],'kind':'split','out':[1,2],'stage':0},{'in':[1],'kind':'map','out':[3],'stage':0,'words':['sort','-r']},{'in':[2],'kind':'map','out':[4],'stage':0,'words':['sort','-r']},{'in':[3,4],'kind':'agg','out':[5],'stage':0,'words':['sort','-r']},{'in':[5],'kind':'split','out':[6,7],'stage':1},{'in':[6],'kind':'map','out':[8],'stage':1,'words':['head','-n','1']},{'in':[7],'kind':'map','out':[9],'stage':1,'words':['head','-n','1']},{'in':[8,9],'kind':'agg','out':[10],'stage':1,'words':['head','-n','1']},{'in':[10],'kind':'sink','out':[],'stage':1}
same {'in':[],'kind':'source','out':[0],'stage':0},{'in':[0],'kind':'whole','out':[1],'stage':0,'words':['tee','g']},{'append':false,'in':[1],'kind':'tee','out':[2],'path':'/w/g','stage':0},{'in':[2],'kind':'split','out':[3,4],'stage':1},{'in':[3],'kind':'map','out':[5],'stage':1,'words':['tr','a','b']},{'in':[4],'kind':'map','out':[6],'stage':1,'words':['tr','a','b']},{'close':false,'in':[5,6],'kind':'cat','out':[7],'stage':1},{'in':[7],'kind':'sink','out':[],'stage':1}
same {'in':[],'kind':'source','out':[0],'path':'/w/f','stage':0},{'in':[],'kind':'text','out':[1],'stage':0,'text':'cat: none: No such file or directory\\n'},{'close':false,'in':[1,0],'kind':'cat','out':[2],'stage':0},{'in':[2],'kind':'split','out':[3,4],'stage':1},{'in':[3],'kind':'map','out':[5],'stage':1,'words':['wc','-l']},{'in':[4],'kind':'map','out':[6],'stage':1,'words':['wc','-l']},{'in':[5,6],'kind':'agg','out':[7],'stage':1,'words':['wc','-l']},{'in':[7],'kind':'sink','out':[],'stage':1}
same {'in':[],'kind':'text','out':[0],'stage':0,'text':''},{'in':[0],'kind':'drain','out':[],'stage':0},{'in':[],'kind':'text','out':[1],'stage':0,'text':'cat: none: No such file or directory\\n'},{'in':[1],'kind':'split','out':[2,3],'stage':1},{'in':[2],'kind':'map','out':[4],'stage':1,'words':['sort']},{'in':[3],'kind':'map','out':[5],'stage':1,'words':['sort']},{'in':[4,5],'kind':'agg','out':[6],'stage':1,'words':['sort']},{'in':[6],'kind':'sink','out':[],'stage':1}
ok {'in':[],'kind':'s\\u006furce','out':[0],'stage':0},{'in':[0],'kind':'sink','out':[],'stage':0}
NotGraph {'in':[],'kind':'source','out':[0],'stage':0,'x':1},{'in':[0],'kind':'sink','out':[],'stage':0}
NotGraph {'in':[],'kind':'source','out':[0]},{'in':[0],'kind':'sink','out':[],'stage':0}
NotGraph {'in':[],'kind':'source','out':[0],'path':'/w/f','stage':0,'text':'a'},{'in':[0],'kind':'sink','out':[],'stage':0}
NotGraph {'in':[],'kind':'source','out':[0],'stage':0},{'append':false,'in':[0],'kind':'sink','out':[],'stage':0}
NotGraph {'in':[],'kind':'source','out':[0],'stage':0},{'in':[0],'kind':'sink','out':[],'path':'/w/f','stage':0}
NotGraph {'in':[],'kind':'source','out':[0],'stage':'0'},{'in':[0],'kind':'sink','out':[],'stage':0}
NotGraph {'in':[],'kind':'source','out':[0],'stage':4294967296},{'in':[0],'kind':'sink','out':[],'stage':0}
NotGraph {'in':[],'kind':'source','out':[0],'stage':0.0},{'in':[0],'kind':'sink','out':[],'stage':0}
NotGraph {'in':[],'kind':'source','out':[0],'stage':0e0},{'in':[0],'kind':'sink','out':[],'stage':0}
NotGraph {'in':[],'kind':'source','out':[0],'stage':-0},{'in':[0],'kind':'sink','out':[],'stage':0}
NotGraph {'in':[],'kind':'source','out':0,'stage':0},{'in':[0],'kind':'sink','out':[],'stage':0}
NotGraph {'in':[],'kind':'Source','out':[0],'stage':0},{'in':[0],'kind':'sink','out':[],'stage':0}
NotGraph {'in':[],'kind':'source','out':[0],'stage':0},{'close':1,'in':[0],'kind':'cat','out':[1],'stage':0},{'in':[1],'kind':'sink','out':[],'stage':0}
NotGraph {'in':[],'kind':'source','out':[0],'stage':0},{'in':[0],'kind':'cat','out':[1],'stage':0},{'in':[1],'kind':'sink','out':[],'stage':0}
NotGraph {'in':[],'kind':'source','out':[0],'path':'','stage':0},{'in':[0],'kind':'sink','out':[],'stage':0}
NotGraph {'in':[],'kind':'source','out':[0],'path':'w/f','stage':0},{'in':[0],'kind':'sink','out':[],'stage':0}
NotGraph {'in':[],'kind':'source','out':[0],'path':'/w/','stage':0},{'in':[0],'kind':'sink','out':[],'stage':0}
NotGraph {'in':[],'kind':'source','out':[0],'path':'//w','stage':0},{'in':[0],'kind':'sink','out':[],'stage':0}
NotGraph {'in':[],'kind':'source','out':[0],'path':'/w/./f','stage':0},{'in':[0],'kind':'sink','out':[],'stage':0}
NotGraph {'in':[],'kind':'source','out':[0],'path':'/w/../f','stage':0},{'in':[0],'kind':'sink','out':[],'stage':0}
NotGraph {'in':[],'kind':'source','out':[0],'path':'/.','stage':0},{'in':[0],'kind':'sink','out':[],'stage':0}
NotGraph {'in':[],'kind':'source','out':[0],'path':'/dev/null','stage':0},{'in':[0],'kind':'sink','out':[],'stage':0}
NotGraph {'in':[],'kind':'source','out':[0],'stage':0},{'in':[0],'kind':'whole','out':[1],'stage':0,'words':[]},{'in':[1],'kind':'drain','out':[],'stage':0}
NotGraph {'in':[],'kind':'source','out':[0],'stage':0},{'in':[0],'kind':'whole','out':[1],'stage':0,'words':['foo']},{'in':[1],'kind':'drain','out':[],'stage':0}
NotGraph {'in':[],'kind':'source','out':[0],'stage':0},{'in':[0],'kind':'whole','out':[1],'stage':0,'words':['']},{'in':[1],'kind':'drain','out':[],'stage':0}
NotGraph {'in':[],'kind':'source','out':[0],'stage':0},{'in':[0],'kind':'whole','out':[1],'stage':0,'words':['grep']},{'in':[1],'kind':'drain','out':[],'stage':0}
NotGraph {'in':[],'kind':'source','out':[0],'stage':0},{'in':[0],'kind':'whole','out':[1],'stage':0,'words':['sort','-c']},{'in':[1],'kind':'drain','out':[],'stage':0}
NotGraph {'in':[],'kind':'source','out':[0],'stage':0},{'in':[0],'kind':'whole','out':[1],'stage':0,'words':['tr','z-a','b']},{'in':[1],'kind':'drain','out':[],'stage':0}
NotGraph {'in':[],'kind':'source','out':[0],'stage':0},{'in':[1],'kind':'sink','out':[],'stage':0}
NotGraph {'in':[],'kind':'source','out':[0],'stage':0},{'in':[0,0],'kind':'sink','out':[],'stage':0}
NotGraph {'in':[],'kind':'source','out':[0],'stage':0}
NotGraph {'in':[0],'kind':'sink','out':[],'stage':0}
NotGraph {'in':[0],'kind':'sink','out':[],'stage':0},{'in':[],'kind':'source','out':[0],'stage':0}
NotGraph {'in':[],'kind':'source','out':[0],'stage':0},{'in':[],'kind':'text','out':[0],'stage':0,'text':'a'},{'in':[0],'kind':'sink','out':[],'stage':0}
NotGraph {'in':[],'kind':'source','out':[0],'stage':0},{'in':[0],'kind':'sink','out':[],'stage':0},{'in':[0],'kind':'drain','out':[],'stage':0}
NotGraph {'in':[],'kind':'source','out':[0],'stage':0},{'in':[0],'kind':'sink','out':[],'stage':0},{'in':[5],'kind':'drain','out':[],'stage':0}
NotGraph {'in':[],'kind':'source','out':[0],'path':'/w/f','stage':0},{'in':[0],'kind':'split','out':[1,2],'stage':0},{'in':[1],'kind':'map','out':[3],'stage':0,'words':['wc','-l']},{'in':[2],'kind':'map','out':[3],'stage':0,'words':['wc','-l']},{'in':[3,4],'kind':'agg','out':[5],'stage':0,'words':['wc','-l']},{'in':[5],'kind':'sink','out':[],'stage':0}
NotGraph {'close':false,'in':[0,1],'kind':'cat','out':[1],'stage':0},{'in':[],'kind':'source','out':[0],'stage':0},{'in':[0],'kind':'sink','out':[],'stage':0}
NotGraph {'in':[],'kind':'source','out':[],'stage':0},{'in':[0],'kind':'sink','out':[],'stage':0}
NotGraph {'in':[],'kind':'source','out':[0],'stage':0},{'in':[0],'kind':'source','out':[1],'stage':0},{'in':[1],'kind':'drain','out':[],'stage':0}
NotGraph {'in':[],'kind':'source','out':[0],'stage':0},{'in':[0],'kind':'text','out':[1],'stage':0,'text':''},{'in':[1],'kind':'drain','out':[],'stage':0}
NotGraph {'in':[],'kind':'source','out':[0],'stage':0},{'in':[0],'kind':'split','out':[],'stage':0}
NotGraph {'in':[],'kind':'source','out':[0],'stage':0},{'in':[],'kind':'text','out':[1],'stage':0,'text':''},{'in':[0,1],'kind':'split','out':[2],'stage':0},{'in':[2],'kind':'drain','out':[],'stage':0}
NotGraph {'in':[],'kind':'source','out':[0],'stage':0},{'in':[],'kind':'text','out':[1],'stage':0,'text':''},{'in':[0,1],'kind':'map','out':[2],'stage':0,'words':['wc','-l']},{'in':[2],'kind':'drain','out':[],'stage':0}
NotGraph {'in':[],'kind':'source','out':[0],'stage':0},{'in':[0],'kind':'map','out':[1,2],'stage':0,'words':['wc','-l']},{'in':[1],'kind':'drain','out':[],'stage':0},{'in':[2],'kind':'drain','out':[],'stage':0}
NotGraph {'in':[],'kind':'map','out':[0],'stage':0,'words':['wc','-l']},{'in':[0],'kind':'drain','out':[],'stage':0}
NotGraph {'close':false,'in':[],'kind':'cat','out':[0],'stage':0},{'in':[0],'kind':'drain','out':[],'stage':0}
NotGraph {'in':[],'kind':'source','out':[0],'stage':0},{'in':[],'kind':'text','out':[1],'stage':0,'text':''},{'close':false,'in':[0,1],'kind':'cat','out':[2,3],'stage':0},{'in':[2],'kind':'drain','out':[],'stage':0},{'in':[3],'kind':'drain','out':[],'stage':0}
NotGraph {'in':[],'kind':'source','out':[0],'stage':0},{'in':[0],'kind':'agg','out':[1],'stage':0,'words':['wc','-l']},{'in':[1],'kind':'drain','out':[],'stage':0}
NotGraph {'in':[],'kind':'source','out':[0],'stage':0},{'in':[0],'kind':'drain','out':[1],'stage':0},{'in':[1],'kind':'drain','out':[],'stage':0}
NotGraph {'in':[],'kind':'source','out':[0],'stage':0},{'in':[],'kind':'text','out':[1],'stage':0,'text':''},{'append':false,'in':[0,1],'kind':'tee','out':[2],'path':'/w/g','stage':0},{'in':[2],'kind':'drain','out':[],'stage':0}
NotGraph {'in':[],'kind':'source','out':[0],'stage':0},{'in':[],'kind':'text','out':[1],'stage':0,'text':''},{'in':[0,1],'kind':'whole','out':[2],'stage':0,'words':['wc','-l']},{'in':[2],'kind':'drain','out':[],'stage':0}
NotGraph {'in':[],'kind':'source','out':[0],'stage':0},{'in':[0],'kind':'whole','out':[1],'stage':0,'words':['head','f','g']},{'in':[1],'kind':'drain','out':[],'stage':0}
NotGraph {'in':[],'kind':'source','out':[0],'stage':0},{'in':[0],'kind':'whole','out':[1],'stage':0,'words':['grep','x','']},{'in':[1],'kind':'drain','out':[],'stage':0}
NotGraph {'in':[],'kind':'source','out':[0],'stage':0},{'in':[0],'kind':'whole','out':[1,2],'stage':0,'words':['wc','-l']},{'in':[1],'kind':'drain','out':[],'stage':0},{'in':[2],'kind':'drain','out':[],'stage':0}
NotGraph {'in':[],'kind':'source','out':[0],'stage':0},{'in':[],'kind':'text','out':[1],'stage':0,'text':''},{'in':[0,1],'kind':'whole','out':[2],'stage':0,'words':['paste','-','-']},{'in':[2],'kind':'drain','out':[],'stage':0}
NotGraph {'in':[],'kind':'source','out':[0],'stage':0},{'in':[],'kind':'text','out':[1],'stage':0,'text':''},{'in':[0,1],'kind':'whole','out':[2],'stage':0,'words':['sort','f','g']},{'in':[2],'kind':'drain','out':[],'stage':0}
NotGraph {'in':[],'kind':'source','out':[0],'stage':0},{'in':[],'kind':'source','out':[1],'stage':0},{'close':false,'in':[0,1],'kind':'cat','out':[2],'stage':0},{'in':[2],'kind':'sink','out':[],'stage':0}
NotGraph {'in':[],'kind':'source','out':[0],'stage':0},{'in':[0],'kind':'split','out':[1,2],'stage':0},{'in':[1],'kind':'sink','out':[],'stage':0},{'in':[2],'kind':'sink','out':[],'stage':0}
NotGraph {'in':[],'kind':'source','out':[0],'stage':0},{'in':[0],'kind':'map','out':[1],'stage':0,'words':['grep','-n','x']},{'in':[1],'kind':'drain','out':[],'stage':0}
NotGraph {'in':[],'kind':'source','out':[0],'stage':0},{'in':[0],'kind':'map','out':[1],'stage':0,'words':['tee']},{'in':[1],'kind':'drain','out':[],'stage':0}
NotGraph {'in':[],'kind':'source','out':[0],'stage':0},{'in':[0],'kind':'map','out':[1],'stage':0,'words':['paste']},{'in':[1],'kind':'drain','out':[],'stage':0}
NotGraph {'in':[],'kind':'source','out':[0],'stage':0},{'in':[0],'kind':'map','out':[1],'stage':0,'words':['tail','-n','+2']},{'in':[1],'kind':'drain','out':[],'stage':0}
NotGraph {'in':[],'kind':'source','out':[0],'stage':0},{'in':[0],'kind':'map','out':[1],'stage':0,'words':['echo','a']},{'in':[1],'kind':'drain','out':[],'stage':0}
NotGraph {'in':[],'kind':'whole','out':[0],'stage':0,'words':['echo','a']},{'in':[0],'kind':'drain','out':[],'stage':0}
NotGraph {'in':[],'kind':'source','out':[0],'path':'/w/f','stage':0},{'in':[0],'kind':'split','out':[1,2],'stage':0},{'in':[1],'kind':'map','out':[3],'stage':0,'words':['tr','a','b']},{'in':[2],'kind':'map','out':[4],'stage':0,'words':['tr','a','b']},{'in':[3,4],'kind':'agg','out':[5],'stage':0,'words':['tr','a','b']},{'in':[5],'kind':'sink','out':[],'stage':0}
NotGraph {'in':[],'kind':'source','out':[0],'path':'/w/f','stage':0},{'in':[0],'kind':'split','out':[1,2],'stage':0},{'in':[1],'kind':'map','out':[3],'stage':0,'words':['wc','-l']},{'in':[2],'kind':'map','out':[4],'stage':0,'words':['wc','-l']},{'in':[3,4],'kind':'agg','out':[5],'stage':0,'words':['wc','-w']},{'in':[5],'kind':'sink','out':[],'stage':0}
NotGraph {'in':[],'kind':'source','out':[0],'path':'/w/f','stage':0},{'in':[0],'kind':'split','out':[1,2],'stage':0},{'in':[1],'kind':'map','out':[3],'stage':0,'words':['wc','-l']},{'in':[2],'kind':'map','out':[4],'stage':0,'words':['wc','-w']},{'in':[3,4],'kind':'agg','out':[5],'stage':0,'words':['wc','-l']},{'in':[5],'kind':'sink','out':[],'stage':0}
NotGraph {'in':[],'kind':'source','out':[0],'stage':0},{'in':[0],'kind':'whole','out':[1],'stage':0,'words':['wc','-l']},{'in':[1],'kind':'finish','out':[2],'stage':0,'words':['wc','-l']},{'in':[2],'kind':'sink','out':[],'stage':0}
NotGraph {'in':[],'kind':'source','out':[0],'stage':0},{'in':[0],'kind':'map','out':[1],'stage':0,'words':['wc','-l']},{'in':[1],'kind':'finish','out':[2],'stage':0,'words':['wc']},{'in':[2],'kind':'sink','out':[],'stage':0}
NotGraph {'in':[],'kind':'source','out':[0],'stage':0},{'in':[0],'kind':'finish','out':[1],'stage':0,'words':['uniq','-d']},{'in':[1],'kind':'drain','out':[],'stage':0}
NotGraph {'in':[],'kind':'source','out':[0],'stage':0},{'in':[],'kind':'text','out':[1],'stage':0,'text':''},{'in':[0,1],'kind':'agg','out':[2],'stage':0,'words':['wc','-l']},{'in':[2],'kind':'drain','out':[],'stage':0}
NotGraph {'in':[],'kind':'source','out':[0],'path':'/w/f','stage':0},{'append':false,'in':[0],'kind':'sink','out':[],'path':'/w/f','stage':0}
NotGraph {'in':[],'kind':'source','out':[0],'stage':0},{'append':false,'in':[0],'kind':'tee','out':[1],'path':'/w/f','stage':0},{'append':true,'in':[1],'kind':'sink','out':[],'path':'/w/f','stage':0}
NotGraph {'in':[],'kind':'source','out':[0],'stage':0},{'append':false,'in':[0],'kind':'sink','out':[],'path':'/dev/null','stage':0}
NotGraph {'in':[],'kind':'source','out':[0],'stage':0},{'append':false,'in':[0],'kind':'tee','out':[1],'path':'/dev/null','stage':0},{'in':[1],'kind':'sink','out':[],'stage':0}
NotGraph {'in':[],'kind':'source','out':[0],'stage':0},{'in':[0],'kind':'rsplit','out':[1,2],'stage':0},{'in':[1],'kind':'map','out':[3],'stage':0,'words':['grep','x']},{'in':[2],'kind':'map','out':[4],'stage':0,'words':['grep','x']},{'in':[3,4],'kind':'rmerge','out':[5],'stage':0},{'in':[5],'kind':'sink','out':[],'stage':0}
NotGraph {'in':[],'kind':'source','out':[0],'stage':0},{'in':[0],'kind':'rsplit','out':[1],'stage':0},{'in':[1],'kind':'unwrap','out':[2],'stage':0},{'in':[2],'kind':'sink','out':[],'stage':0}";

#[test]
fn nodes_are_read_or_told(rt: HostRuntime) -> Result<(), Fail> {
    for row in NODES.lines() {
        let is_right = holds(
            rt.alloc(),
            "{'nodes':[",
            row,
            "],'status':{'fixed':0},'version':1}",
        )?;
        assert!(rt; is_right, "{row}");
    }
    Ok(())
}

/// Whole texts.
static TEXTS: &str =
    "same {'nodes':[{'in':[],'kind':'source','out':[0],'stage':0},{'in':[0],'kind':'sink','out':[],'stage':0}],'status':{'fixed':255},'version':1}
same {'nodes':[{'in':[],'kind':'source','out':[0],'stage':0},{'in':[0],'kind':'whole','out':[1],'stage':0,'words':['grep','[']},{'in':[1],'kind':'sink','out':[],'stage':0}],'status':{'nodes':[1],'none':1,'some':0},'version':1}
same {'nodes':[{'in':[],'kind':'source','out':[0],'stage':0},{'in':[0],'kind':'sink','out':[],'stage':0}],'status':{'nodes':[],'none':1,'some':0},'version':1}
same {'nodes':[{'in':[],'kind':'source','out':[0],'stage':0},{'in':[0],'kind':'whole','out':[1],'stage':0,'words':['grep','-c','x']},{'in':[1],'kind':'sink','out':[],'stage':0}],'status':{'nodes':[1,1],'none':1,'some':0},'version':1}
same {'nodes':[{'in':[],'kind':'source','out':[0],'stage':0},{'in':[0],'kind':'whole','out':[1],'stage':0,'words':['grep','x']},{'in':[1],'kind':'sink','out':[],'stage':0}],'status':{'nodes':[1],'none':1,'some':0},'version':1}
same {'nodes':[{'in':[],'kind':'source','out':[0],'path':'/w/f','stage':0},{'in':[0],'kind':'whole','out':[1],'stage':0,'words':['grep','-c','x','f','']},{'in':[1],'kind':'sink','out':[],'stage':0}],'status':{'fixed':2},'version':1}
same {'nodes':[{'in':[],'kind':'source','out':[0],'path':'/w/f','stage':0},{'in':[0],'kind':'whole','out':[1],'stage':0,'words':['grep','-q','x','f','']},{'in':[1],'kind':'sink','out':[],'stage':0}],'status':{'nodes':[1],'none':2,'some':0},'version':1}
same {'nodes':[{'in':[],'kind':'source','out':[0],'stage':0},{'in':[0],'kind':'split','out':[1,2],'stage':1},{'in':[1],'kind':'map','out':[3],'stage':1,'words':['grep','-q','x']},{'in':[2],'kind':'map','out':[4],'stage':1,'words':['grep','-q','x']},{'close':false,'in':[3,4],'kind':'cat','out':[5],'stage':1},{'in':[5],'kind':'sink','out':[],'stage':1}],'status':{'nodes':[2,3],'none':1,'some':0},'version':1}
same {'nodes':[{'in':[],'kind':'source','out':[0],'path':'/w/f','stage':0},{'in':[0],'kind':'split','out':[1,2],'stage':0},{'in':[1],'kind':'map','out':[3],'stage':0,'words':['grep','x','f']},{'in':[2],'kind':'map','out':[4],'stage':0,'words':['grep','x','f']},{'close':false,'in':[3,4],'kind':'cat','out':[5],'stage':0},{'in':[5],'kind':'sink','out':[],'stage':0}],'status':{'nodes':[2,3],'none':1,'some':0},'version':1}
same {'nodes':[{'in':[],'kind':'source','out':[0],'path':'/w/f','stage':0},{'in':[0],'kind':'split','out':[1,2],'stage':0},{'in':[1],'kind':'map','out':[3],'stage':0,'words':['grep','x']},{'in':[2],'kind':'map','out':[4],'stage':0,'words':['grep','x']},{'close':false,'in':[3,4],'kind':'cat','out':[5],'stage':0},{'append':false,'in':[5],'kind':'sink','out':[],'path':'/w/g','stage':0}],'status':{'nodes':[2,3],'none':1,'some':0},'version':1}
same {'nodes':[{'in':[],'kind':'source','out':[0],'stage':0},{'in':[0],'kind':'drain','out':[],'stage':1},{'in':[],'kind':'source','out':[1],'path':'/w/f','stage':1},{'in':[1],'kind':'split','out':[2,3],'stage':1},{'in':[2],'kind':'map','out':[4],'stage':1,'words':['grep','x','f']},{'in':[3],'kind':'map','out':[5],'stage':1,'words':['grep','x','f']},{'close':false,'in':[4,5],'kind':'cat','out':[6],'stage':1},{'in':[6],'kind':'sink','out':[],'stage':1}],'status':{'nodes':[4,5],'none':1,'some':0},'version':1}
same {'nodes':[{'in':[],'kind':'source','out':[0],'path':'/w/f','stage':0},{'in':[],'kind':'source','out':[1],'path':'/w/g','stage':0},{'close':false,'in':[0,1],'kind':'cat','out':[2],'stage':0},{'in':[2],'kind':'split','out':[3,4],'stage':1},{'in':[3],'kind':'map','out':[5],'stage':1,'words':['grep','x']},{'in':[4],'kind':'map','out':[6],'stage':1,'words':['grep','x']},{'close':false,'in':[5,6],'kind':'cat','out':[7],'stage':1},{'in':[7],'kind':'sink','out':[],'stage':1}],'status':{'nodes':[4,5],'none':1,'some':0},'version':1}
same {'nodes':[{'in':[],'kind':'source','out':[0],'path':'/w/f','stage':0},{'in':[],'kind':'source','out':[1],'path':'/w/g','stage':0},{'close':false,'in':[0],'kind':'cat','out':[2],'stage':0},{'close':false,'in':[1],'kind':'cat','out':[3],'stage':0},{'in':[2],'kind':'map','out':[4],'stage':1,'words':['grep','x']},{'in':[3],'kind':'map','out':[5],'stage':1,'words':['grep','x']},{'close':false,'in':[4,5],'kind':'cat','out':[6],'stage':1},{'in':[6],'kind':'sink','out':[],'stage':1}],'status':{'nodes':[4,5],'none':1,'some':0},'version':1}
same {'nodes':[{'in':[],'kind':'source','out':[0],'stage':0},{'in':[0],'kind':'split','out':[1,2,3],'stage':0},{'in':[1],'kind':'map','out':[4],'stage':0,'words':['tr','a','b']},{'in':[2],'kind':'map','out':[5],'stage':0,'words':['tr','a','b']},{'in':[3],'kind':'map','out':[6],'stage':0,'words':['tr','a','b']},{'in':[4],'kind':'map','out':[7],'stage':1,'words':['grep','-c','b']},{'in':[5],'kind':'map','out':[8],'stage':1,'words':['grep','-c','b']},{'in':[6],'kind':'map','out':[9],'stage':1,'words':['grep','-c','b']},{'in':[7,8],'kind':'agg','out':[10],'stage':1,'words':['grep','-c','b']},{'in':[10,9],'kind':'agg','out':[11],'stage':1,'words':['grep','-c','b']},{'in':[11],'kind':'sink','out':[],'stage':1}],'status':{'nodes':[5,6,7],'none':1,'some':0},'version':1}
ok {'nodes':[{'in':[],'kind':'source','out':[0],'stage':0},{'in':[0],'kind':'sink','out':[],'stage':0}],'status':{'fixed':0},'version':2,'version':1}
NotGraph 1
NotGraph null
NotGraph []
NotGraph 'a'
NotGraph {}
NotGraph [{'nodes':[{'in':[],'kind':'source','out':[0],'stage':0},{'in':[0],'kind':'sink','out':[],'stage':0}],'status':{'fixed':0},'version':1}]
NotGraph {'version':4294967296}
NotGraph {'version':-1}
NotGraph {'version':'1'}
NotGraph {'version':9.0}
NotGraph {'version':9e0}
NotGraph {'version':-0}
NotGraph {'Version':9}
NotGraph {'version':null}
NotGraph {'version':1}
NotGraph {'version':3,'version':1}
NotGraph {'nodes':[{'in':[],'kind':'source','out':[0],'stage':0},{'in':[0],'kind':'sink','out':[],'stage':0}],'status':{'fixed':0},'version':1,'x':0}
NotGraph {'nodes':[{'in':[],'kind':'source','out':[0],'stage':0},{'in':[0],'kind':'sink','out':[],'stage':0}],'version':1}
NotGraph {'nodes':[{'in':[],'kind':'source','out':[0],'stage':0},{'in':[0],'kind':'sink','out':[],'stage':0}],'status':{'fixed':256},'version':1}
NotGraph {'nodes':[{'in':[],'kind':'source','out':[0],'stage':0},{'in':[0],'kind':'sink','out':[],'stage':0}],'status':{'fixed':0,'none':1},'version':1}
NotGraph {'nodes':[{'in':[],'kind':'source','out':[0],'stage':0},{'in':[0],'kind':'sink','out':[],'stage':0}],'status':{},'version':1}
NotGraph {'nodes':[{'in':[],'kind':'source','out':[0],'stage':0},{'in':[0],'kind':'sink','out':[],'stage':0}],'status':{'nodes':[],'some':0},'version':1}
NotGraph {'nodes':{},'status':{'fixed':0},'version':1}
NotGraph {'nodes':[{'in':[],'kind':'source','out':[0],'stage':0},{'in':[0],'kind':'whole','out':[1],'stage':0,'words':['grep','x']},{'in':[1],'kind':'sink','out':[],'stage':0}],'status':{'nodes':[0],'none':1,'some':0},'version':1}
NotGraph {'nodes':[{'in':[],'kind':'source','out':[0],'stage':0},{'in':[0],'kind':'whole','out':[1],'stage':0,'words':['grep','x']},{'in':[1],'kind':'sink','out':[],'stage':0}],'status':{'nodes':[2],'none':1,'some':0},'version':1}
NotGraph {'nodes':[{'in':[],'kind':'source','out':[0],'stage':0},{'in':[0],'kind':'whole','out':[1],'stage':0,'words':['grep','x']},{'in':[1],'kind':'sink','out':[],'stage':0}],'status':{'nodes':[3],'none':1,'some':0},'version':1}
NotGraph {'nodes':[{'in':[],'kind':'source','out':[0],'stage':0},{'in':[0],'kind':'whole','out':[1],'stage':0,'words':['wc']},{'in':[1],'kind':'sink','out':[],'stage':0}],'status':{'nodes':[1],'none':1,'some':0},'version':1}
NotGraph {'edges':['plain'],'nodes':[{'in':[],'kind':'source','out':[0],'stage':0},{'in':[0],'kind':'sink','out':[],'stage':0}],'status':{'fixed':0},'version':1}
BadVersion {'version':2}
BadVersion {'version':0}
BadVersion {'version':3}
BadVersion {'version':4294967295}
BadVersion {'version':9,'nodes':7}
BadVersion {'nodes':[{'in':[],'kind':'source','out':[0],'stage':0},{'in':[0],'kind':'sink','out':[],'stage':0}],'status':{'fixed':0},'version':9}
BadVersion {'version':1,'version':3}
NotJson {
NotJson {}}
NotJson nul
NotJson {'nodes':[],}
NotJson [1,]
NotJson 01
NotJson +1
NotJson .5
NotJson 'a
NotJson {'nodes':[{'in':[],'kind':'source','out':[0],'stage':0},{'in':[0],'kind':'sink','out':[],'stage':0}],'status':{'fixed':0},'version':1}x
NotJson /**/{}
NotJson NaN
NotJson {'nodes':[{'in':[],'kind':'source','out':[0],'stage':0},{'in':[0],'kind':'sink','out':[],'stage':0}],'status':{'fixed':00},'version':1}";

#[test]
fn texts_are_read_or_told(rt: HostRuntime) -> Result<(), Fail> {
    for row in TEXTS.lines() {
        assert!(rt; holds(rt.alloc(), "", row, "")?, "{row}");
    }
    Ok(())
}

/// Texts that a row can't hold: white space, other characters, bytes that are none, a lone surrogate, and a number that no float fits.
static OTHER_TEXTS: [(&[u8], &str); 15] = [
    (b"", "NotJson"),
    (b" ", "NotJson"),
    (b"{'nodes':[]}", "NotJson"),
    (b"\"\\x\"", "NotJson"),
    (b"\"\t\"", "NotJson"),
    (b"\xff", "NotJson"),
    (b"\"\xe9\"", "NotJson"),
    (b"\"\xed\xa0\x80\"", "NotJson"),
    (b"\xef\xbb\xbf{}", "NotJson"),
    (b"\"\\ud800\"", "NotJson"),
    (b"1e999", "NotJson"),
    (
        b" { \"version\" : 1 ,\n\"status\":{\"fixed\":0},\t\"nodes\":[ ] } \n",
        "ok",
    ),
    (
        b"{\"nodes\":[{\"in\":[],\"kind\":\"source\",\"out\":[0],\"path\":\"/w/\xc3\xbf\",\"stage\":0},{\"in\":[0],\"kind\":\"sink\",\"out\":[],\"stage\":0}],\"status\":{\"fixed\":0},\"version\":1}",
        "same",
    ),
    (
        b"{\"nodes\":[{\"in\":[],\"kind\":\"text\",\"out\":[0],\"stage\":0,\"text\":\"\xc3\xa9\\n\\u0000\\u001f/\x7f\xc3\xbf\\\\\\\"\"},{\"in\":[0],\"kind\":\"sink\",\"out\":[],\"stage\":0}],\"status\":{\"fixed\":0},\"version\":1}",
        "same",
    ),
    (
        b"{\"nodes\":[{\"in\":[],\"kind\":\"text\",\"out\":[0],\"stage\":0,\"text\":\"\xc4\x80\"},{\"in\":[0],\"kind\":\"sink\",\"out\":[],\"stage\":0}],\"status\":{\"fixed\":0},\"version\":1}",
        "NotGraph",
    ),
];

#[test]
fn other_texts_are_read_or_told(rt: HostRuntime) -> Result<(), Fail> {
    for &(text, wanted) in OTHER_TEXTS.iter() {
        assert!(rt; answer(rt.alloc(), text)? == wanted, "{text:?}");
    }
    Ok(())
}

/// What a text of so many arrays in one another is.
fn nested(alloc: Global, depth: u32) -> Result<&'static str, Fail> {
    let mut text = Vec::new(alloc);
    for _ in 0..depth {
        text.push(b'[')?;
    }
    for _ in 0..depth {
        text.push(b']')?;
    }
    answer(alloc, text.as_slice())
}

#[test]
fn arrays_nest_127_deep_at_most(rt: HostRuntime) -> Result<(), Fail> {
    assert!(rt; nested(rt.alloc(), 127)? == "NotGraph");
    assert!(rt; nested(rt.alloc(), 128)? == "NotJson");
    Ok(())
}
